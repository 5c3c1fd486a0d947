ghost use Rattle.std.specs.Prelude.{◌≤◌, length};

use arrayvec::ArrayVec;

/// At most `LIMIT` values, the newest last. They lie in the stack itself, so no call needs memory.
#[derive(Drop)]
pub struct Stack<T, const LIMIT: usize> {
    pub(crate) held: ArrayVec<T, LIMIT>,
    ghost few: { length held.items ≤ LIMIT },
}

/// There is no room for what was to come.
#[derive(Clone, Copy, Debug, PartialEq, Eq)]
pub struct Full;
