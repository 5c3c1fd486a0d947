//! What an expansion has begun and not ended: the open conditionals, and the tasks under way.
#![tactic(auto)]

mod conditional;
mod opening;
mod prefixes;
mod stack;
mod stacking;
mod task;
mod tasking;
mod waits;

pub use conditional::{Conditional, Conditionals, Part};
pub use stack::{Full, Stack};
pub use task::{NoPrefix, Prefix, Task, Tasks};
