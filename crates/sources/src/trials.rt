ghost use Rattle.std.specs.Prelude.{◌≡◌};
ghost use Rattle.sources.specs.Trials.{LineCases};

/// The worked cases of the line rules stand; tells how many there are.
pub fn line_cases_stand() -> u8
    ensures cases { LineCases }
    ensures count { result ≡ 9 }
{
    9
}
