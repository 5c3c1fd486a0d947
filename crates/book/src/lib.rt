//! The book: groups, what names mean and which category each code has, and the words of definitions.
#![tactic(auto)]

mod calls;
mod contents;
mod entries;
mod fault;
mod first;
mod grouped;
mod grouping;
mod meaning;
mod questions;
mod wording;
mod words;

pub use contents::Book;
pub use fault::BookFault;
pub use meaning::{Definition, Meaning, Plain, Primitive};
