//! Spellings and their numbers.
#![tactic(auto)]

mod fault;
mod names;
mod naming;
mod searching;
mod spelling;
mod table;

pub use fault::NamesFault;
pub use names::Names;
