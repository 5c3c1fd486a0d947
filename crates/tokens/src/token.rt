use crate::token_category::TokenCategory;

/// A name by its number, or a character by its category and code.
#[derive(Clone, Copy, Debug, PartialEq, Eq)]
pub enum Token {
    Name(u16),
    Character(TokenCategory, u8),
}
