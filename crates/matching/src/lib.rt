//! How the tokens behind a macro's name are divided into its arguments.
#![tactic(auto)]

mod laws;
mod refusal;

pub use laws::division_laws_stand;
pub use refusal::MatcherRefusal;
