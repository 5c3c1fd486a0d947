ghost use Rattle.std.specs.Prelude.{◌≡◌, false};
ghost use Rattle.pending.specs.declared.task.Task.TheVariants as task;

use crate::stack::Stack;
use tokens::Token;

/// What stands before a definition: whether it is made for all groups, and whether its arguments may be long.
#[derive(Clone, Copy, Debug, Default, PartialEq, Eq)]
pub struct Prefix {
    pub global: bool,
    pub long: bool,
}

/// A token that waits for the one behind it to be expanded, or a prefix that waits for its definition.
#[derive(Clone, Copy, Debug, PartialEq, Eq)]
pub enum Task {
    After(Token),
    Prefix(Prefix),
}

// The prefix that marks nothing: it lies in the places of a stack that are not used.
// By hand, since a derive takes only a case that holds nothing.
impl Default for Task {
    ghost is_default = { λ it. it ≡ task.Prefix (record { global = false; long = false }) };

    fn default() -> Task {
        Task::Prefix(Prefix::default())
    }
}

/// The tasks under way, the newest last: at most 64.
pub type Tasks = Stack<Task, 64>;

/// The newest task is no prefix.
#[derive(Clone, Copy, Debug, PartialEq, Eq)]
pub struct NoPrefix;
