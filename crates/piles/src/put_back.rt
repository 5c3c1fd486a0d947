use crate::held::Held;

/// A source with tokens put back in front of it.
#[derive(Drop)]
pub struct PutBack<S> {
    pub(crate) held: Held,
    pub(crate) below: S,
}
