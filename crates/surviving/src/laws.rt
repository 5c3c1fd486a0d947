ghost use Rattle.std.specs.Prelude.{◌≡◌};
ghost use Rattle.surviving.specs.Laws.{Survives};

/// What survives in the diary of any calls is what is found; tells how many laws there are.
pub fn survival_stands() -> u8
    ensures law { Survives }
    ensures count { result ≡ 1 }
{
    1
}
