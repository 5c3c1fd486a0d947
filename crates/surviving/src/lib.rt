//! What is found after any list of calls, by a diary of them.
#![tactic(auto)]

mod laws;

pub use laws::survival_stands;
