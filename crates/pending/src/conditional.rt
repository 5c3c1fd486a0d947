use crate::stack::Stack;

/// A conditional is in its first part, or behind its `else`.
#[derive(Clone, Copy, Debug, Default, PartialEq, Eq)]
pub enum Part {
    #[default]
    First,
    Second,
}

/// An open conditional.
#[derive(Clone, Copy, Debug, Default, PartialEq, Eq)]
pub struct Conditional {
    pub part: Part,
}

/// The open conditionals, the innermost last: at most 100.
pub type Conditionals = Stack<Conditional, 100>;
