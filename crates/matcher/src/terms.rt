ghost use Rattle.std.specs.Prelude.{◌+◌, ◌≤◌};

// What an argument is read under: whether the macro is long, how many tokens count already, and how many have to be left for
// the parameters behind it.
#[derive(Clone, Copy, Debug, PartialEq, Eq)]
pub(crate) struct Terms {
    pub(crate) long: bool,
    pub(crate) counted: usize,
    pub(crate) few: usize,
    ghost fits: { counted + few ≤ 4096 },
}
