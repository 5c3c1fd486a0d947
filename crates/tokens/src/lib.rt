//! Tokens, answers and the 32-bit words that stand for them.
#![tactic(auto)]

mod answer;
mod answers;
mod category;
mod codec;
mod fields;
mod first;
mod layer;
mod stored;
mod token;
mod token_category;
mod unknown;

pub use answer::{Answer, Entry, GroupKind, Scope};
pub use category::Category;
pub use layer::Layer;
pub use stored::{BodyWord, ParameterWord};
pub use token::Token;
pub use token_category::TokenCategory;
pub use unknown::Unknown;
