//! Sources of tokens: the interface, the faults of reading, and the text at the bottom.
#![tactic(auto)]

mod cursor;
mod fault;
mod faults;
mod reading;
mod source;
mod splitting;
mod text;
mod text_source;
mod texts;
mod trials;

pub use fault::{LineFault, LineRefusal, PileFault, PileRefusal, Place, ReadRefusal};
pub use source::Source;
pub use text::{MakeFault, Text};
pub use trials::line_cases_stand;
