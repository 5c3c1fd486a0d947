ghost use Rattle.std.specs.Prelude.{◌≡◌};
ghost use Rattle.alike.specs.Laws.{AnswerAlike};

/// States that are the same as spelled answer alike; tells how many laws there are.
pub fn likeness_stands() -> u8
    ensures law { AnswerAlike }
    ensures count { result ≡ 1 }
{
    1
}
