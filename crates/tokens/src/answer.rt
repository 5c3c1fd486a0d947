use crate::category::Category;
use crate::token::Token;

/// How a group was begun, with the number that a word has for it.
#[derive(Clone, Copy, Debug, PartialEq, Eq)]
pub enum GroupKind {
    Brace = 0,
    BeginGroup = 1,
    Host = 2,
}

#[derive(Clone, Copy, Debug, PartialEq, Eq)]
pub enum Scope {
    Local,
    Global,
}

/// What an assignment gave a value to: a name, or a code with its new category.
#[derive(Clone, Copy, Debug, PartialEq, Eq)]
pub enum Entry {
    Name(u16),
    Code(u8, Category),
}

#[derive(Clone, Copy, Debug, PartialEq, Eq)]
pub enum Answer {
    Delivered(Token),
    Opened(GroupKind),
    Closed(GroupKind),
    Assigned(Scope, Entry),
    End,
    Working,
}
