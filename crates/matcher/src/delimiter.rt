ghost use Rattle.std.specs.Prelude.{◌≡◌, ◌≤◌, length};
ghost use Rattle.matcher.specs.Marks.{delimiter_in};

use tokens::ParameterWord;

// The tokens behind a parameter up to the next one, or those before the first.
#[derive(Clone, Copy, Debug, PartialEq, Eq)]
pub(crate) struct Delimiter<'a> {
    pub(crate) words: &'a [ParameterWord],
    ghost tokens: { length (delimiter_in words.now) ≡ length words.now },
    ghost short: { length words.now ≤ 2048 },
}
