ghost use Rattle.std.specs.Prelude.{◌≡◌};
ghost use Rattle.std.specs.Option.{ok_or};
ghost use Rattle.book.specs.Primitives.{primitive_number, primitive_of};

use tokens::{BodyWord, ParameterWord, TokenCategory, Unknown};

/// What a name can mean that no definition made, with the number of the name that means it at first.
#[derive(Clone, Copy, Debug, PartialEq, Eq)]
pub enum Primitive {
    Relax = 256,
    Par = 257,
    Def = 258,
    Gdef = 259,
    Let = 260,
    Global = 261,
    Long = 262,
    Catcode = 263,
    BeginGroup = 264,
    EndGroup = 265,
    ExpandAfter = 266,
    Ifx = 267,
    IfTrue = 268,
    IfFalse = 269,
    Else = 270,
    Fi = 271,
}

/// A meaning that has no words.
#[derive(Clone, Copy, Debug, PartialEq, Eq)]
pub enum Plain {
    Undefined,
    Primitive(Primitive),
    Character(TokenCategory, u8),
}

// A part of the words of definitions.
#[derive(Clone, Copy, Debug, PartialEq, Eq)]
pub(crate) struct Span {
    pub(crate) start: u16,
    pub(crate) count: u16,
}

// A macro, by where its words lie.
#[derive(Clone, Copy, Debug, PartialEq, Eq)]
pub(crate) struct Macro {
    pub(crate) long: bool,
    pub(crate) parameters: Span,
    pub(crate) body: Span,
}

// A meaning as the table holds it. No `Meaning`: there a macro has its words, and callers match on its cases directly.
#[derive(Clone, Copy, Debug, PartialEq, Eq)]
pub(crate) enum Held {
    Plain(Plain),
    Macro(Macro),
}

/// A macro with its words.
#[derive(Clone, Copy, Debug, PartialEq, Eq)]
pub struct Definition<'a> {
    pub long: bool,
    pub parameters: &'a [ParameterWord],
    pub body: &'a [BodyWord],
}

/// What a name means.
#[derive(Clone, Copy, Debug, PartialEq, Eq)]
pub enum Meaning<'a> {
    Undefined,
    Primitive(Primitive),
    Character(TokenCategory, u8),
    Macro(Definition<'a>),
}

impl From<Primitive> for u16 {
    ghost from_gives = { λ p n. n ≡ primitive_number p };

    fn from(primitive: Primitive) -> u16 {
        primitive as u16
    }
}

// The primitive that the name of a number means at first, if it means one.
impl TryFrom<u16> for Primitive {
    type Error = Unknown;

    ghost try_from_gives = { λ n r. r ≡ ok_or (primitive_of n) (record { 0 = n }) };

    fn try_from(number: u16) -> Result<Primitive, Unknown> {
        match number {
            256 => Ok(Primitive::Relax),
            257 => Ok(Primitive::Par),
            258 => Ok(Primitive::Def),
            259 => Ok(Primitive::Gdef),
            260 => Ok(Primitive::Let),
            261 => Ok(Primitive::Global),
            262 => Ok(Primitive::Long),
            263 => Ok(Primitive::Catcode),
            264 => Ok(Primitive::BeginGroup),
            265 => Ok(Primitive::EndGroup),
            266 => Ok(Primitive::ExpandAfter),
            267 => Ok(Primitive::Ifx),
            268 => Ok(Primitive::IfTrue),
            269 => Ok(Primitive::IfFalse),
            270 => Ok(Primitive::Else),
            271 => Ok(Primitive::Fi),
            _ => Err(Unknown(u32::from(number))),
        }
    }
}
