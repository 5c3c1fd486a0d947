//! What every pile of sources is made of: one source behind another, and tokens put back in front of one.
#![tactic(auto)]

mod held;
mod holding;
mod join;
mod joining;
mod put_back;
mod put_back_source;
mod putting;
mod words;

pub use held::PUT_BACK_LIMIT;
pub use join::Join;
pub use put_back::PutBack;
