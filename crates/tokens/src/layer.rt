/// The part of the program that refuses.
#[derive(Clone, Copy, Debug, PartialEq, Eq)]
pub enum Layer {
    Line,
    Names,
    Pile,
    Matcher,
    Book,
    Gullet,
}
