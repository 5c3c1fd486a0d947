//! The rules of the gullet, as definitions with their laws: what every call answers, and the state that it leaves.
#![tactic(auto)]

mod phases;
mod refusal;
mod sheets;

pub use phases::{Act, Assignment, Found, Letting, Number, Subject, Until};
pub use refusal::GulletRefusal;
pub use sheets::sheets_stand;
