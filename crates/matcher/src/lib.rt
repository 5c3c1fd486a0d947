//! The arguments of a macro call, read from any source of tokens.
#![tactic(auto)]

mod allowing;
mod argument;
mod arguments;
mod before;
mod calling;
mod delimited;
mod delimiter;
mod depths;
mod dividing;
mod groups;
mod holding;
mod mark;
mod settling;
mod span;
mod telling;
mod terms;
mod text;
mod texts;
mod undelimited;
mod words;

pub use arguments::Arguments;
pub use calling::matched;
pub use text::{NoText, ParameterText};
