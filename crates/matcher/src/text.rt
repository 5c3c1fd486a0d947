ghost use Rattle.std.specs.Prelude.{◌≡◌, ◌≤◌, false, length};
ghost use Rattle.matching.specs.Laws.{has_closing, parameters_in};

use tokens::ParameterWord;

// The most words of a parameter text.
pub(crate) const WORDS_LIMIT: usize = 2_048;

// The most parameters of a macro.
pub(crate) const PARAMETERS_LIMIT: usize = 9;

/// A parameter text that a macro may have.
#[derive(Clone, Copy, Debug, PartialEq, Eq)]
pub struct ParameterText<'a> {
    pub(crate) words: &'a [ParameterWord],
    ghost short: { length words.now ≤ 2048 },
    ghost few: { parameters_in words.now ≤ 9 },
    ghost plain: { has_closing words.now ≡ false },
}

/// Words are not a parameter text that a macro may have.
#[derive(Clone, Copy, Debug, PartialEq, Eq)]
pub struct NoText;
