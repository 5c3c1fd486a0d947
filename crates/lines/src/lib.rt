//! Pieces of a line: what the next bytes of a line give, by the line's state and the bytes' categories.
#![tactic(auto)]

mod lexer;
mod piece;

pub use lexer::lexed;
pub use piece::{LineState, Piece};
