// Where an argument's tokens stand: from a place up to another. It is copied, as the library's range is not.
#[derive(Clone, Copy, Debug, PartialEq, Eq)]
pub(crate) struct Span {
    pub(crate) from: usize,
    pub(crate) to: usize,
}
