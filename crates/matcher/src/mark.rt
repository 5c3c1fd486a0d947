// A place in the tokens of a delimited argument: how deep in braces it is, and whether the name 257 was passed on the way to it.
#[derive(Clone, Copy, Debug, PartialEq, Eq)]
pub(crate) struct Mark {
    pub(crate) at: usize,
    pub(crate) depth: usize,
    pub(crate) par: bool,
}
