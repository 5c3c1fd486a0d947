//! Rules that read several tokens: the tokens ahead one by one, and the scanning status meanwhile.
#![tactic(auto)]

mod status;
mod taking;
mod telling;

pub use status::{Guard, Scan, Status};
pub use taking::needed;
pub use telling::{is_blank, is_close, is_open};
