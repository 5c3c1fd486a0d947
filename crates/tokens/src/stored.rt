use crate::token::Token;

/// A word of a macro's parameter text.
#[derive(Clone, Copy, Debug, PartialEq, Eq)]
pub enum ParameterWord {
    Token(Token),
    Parameter,
}

/// A word of a macro's body; a reference is to a parameter, from 1 to 9.
#[derive(Clone, Copy, Debug, PartialEq, Eq)]
pub enum BodyWord {
    Token(Token),
    Reference(u8),
}
