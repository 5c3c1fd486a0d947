//! The expansion of a macro's body with the arguments of a call.
#![tactic(auto)]

mod expansion;
mod filling;

pub use expansion::{Expansion, TooLong};
pub use filling::expansion_length;
