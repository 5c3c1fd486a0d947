//! What keeps a macro call's arguments from being read.
#![tactic(auto)]

mod fault;
mod faults;

pub use fault::{MatcherCause, MatcherFault};
