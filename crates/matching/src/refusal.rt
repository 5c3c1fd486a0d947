ghost use Rattle.std.specs.Prelude.{◌≡◌};
ghost use Rattle.matching.specs.Refusals.{refusal_number};

/// Why a macro's call has no arguments, with the number that the rules give it.
#[derive(Clone, Copy, Debug, PartialEq, Eq)]
pub enum MatcherRefusal {
    // A token differs from the text before the first parameter.
    Differs = 22,
    // A brace closes in an argument that was not opened in it.
    Unmatched = 23,
    // The name 257 stands in an argument, and the macro is not long.
    Par = 24,
    // The arguments have over 4,096 tokens.
    TooLong = 42,
}

impl From<MatcherRefusal> for u8 {
    ghost from_gives = { λ refusal n. n ≡ refusal_number refusal };

    fn from(refusal: MatcherRefusal) -> u8 {
        refusal as u8
    }
}
