//! States that differ only in the numbers of names, in used words and in what is put back are answered alike.
#![tactic(auto)]

mod laws;

pub use laws::likeness_stands;
