// The side of a join that was read last.
#[derive(Clone, Copy, Debug, PartialEq, Eq)]
pub(crate) enum Side {
    First,
    Second,
}

/// A source, and behind its end another.
#[derive(Drop)]
pub struct Join<A, B> {
    pub(crate) first: A,
    pub(crate) second: B,
    pub(crate) last: Side,
}
