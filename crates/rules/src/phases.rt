use pending::Prefix;
use tokens::{GroupKind, Token};

/// What a skip looks for: the \else or the \fi of its conditional, or its \fi alone.
#[derive(Clone, Copy, Debug, PartialEq, Eq)]
pub enum Until {
    ElseOrFi,
    OnlyFi,
}

/// Which of them it found.
#[derive(Clone, Copy, Debug, PartialEq, Eq)]
pub enum Found {
    Else,
    Fi,
}

/// Where the reading of \let's token is, behind its name.
#[derive(Clone, Copy, Debug, PartialEq, Eq)]
pub enum Letting {
    BeforeEquals,
    BehindEquals,
    BehindSpace,
}

/// Where the reading of \catcode's character is.
#[derive(Clone, Copy, Debug, PartialEq, Eq)]
pub enum Subject {
    BeforeQuote,
    BehindQuote,
}

/// Where the reading of \catcode's number is.
#[derive(Clone, Copy, Debug, PartialEq, Eq)]
pub enum Number {
    BeforeNumber,
    BeforeDigit,
    InDigits(u8),
}

/// An assignment.
#[derive(Clone, Copy, Debug, PartialEq, Eq)]
pub enum Assignment {
    // \def, or \gdef, which is global by itself.
    Define { global: bool },
    Let,
    Catcode,
}

/// What an unexpandable token does.
#[derive(Clone, Copy, Debug, PartialEq, Eq)]
pub enum Act {
    Open(GroupKind),
    Close(GroupKind),
    Prefix(Prefix),
    Assign(Assignment),
    // It passes under a prefix, and is delivered as itself else.
    Pass,
    Deliver(Token),
}
