//! The grouped table: what it holds, and its laws for every type of values.
#![tactic(auto)]

ghost use Rattle.std.specs.Prelude.{◌≡◌};
ghost use Rattle.tables.specs.Laws.{Survives, LeavesNoTrace};

/// What a key holds: its value, and the depth of the group that it was assigned in locally.
/// The level is 0 for a first value, and for what was assigned globally or outside all groups.
#[derive(Clone, Copy, Debug, PartialEq, Eq)]
pub struct Entry<V: Copy> {
    pub value: V,
    pub level: u8,
}

/// A save record: what a key held before a local assignment.
#[derive(Clone, Copy, Debug, PartialEq, Eq)]
pub struct Saved<V: Copy> {
    pub key: usize,
    pub entry: Entry<V>,
}

/// The laws of the table stand for values of every type; tells how many there are.
pub fn laws_stand<V>() -> u8
    ensures laws { Survives V × LeavesNoTrace V }
    ensures count { result ≡ 2 }
{
    2
}
