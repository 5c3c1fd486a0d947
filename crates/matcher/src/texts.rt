ghost use Rattle.std.specs.Prelude.{◌≡◌, true, false, [], count_by, MatchResult, if◌then◌else◌};
ghost use Rattle.std.specs.List.{list_any};
ghost use Rattle.matcher.specs.Words.{is_parameter, is_closing, may_be};

use crate::text::{NoText, PARAMETERS_LIMIT, ParameterText, WORDS_LIMIT};
use driving::is_close;
use tokens::ParameterWord;

// Whether a closing brace is among the words.
fn closes(words: &[ParameterWord]) -> bool
    ensures { result ≡ list_any is_closing words.now }
{
    words.iter().any(|word| matches!(word, ParameterWord::Token(token) if is_close(*token)))
}

// How many parameters are among the words.
fn parameters(words: &[ParameterWord]) -> usize
    ensures { result ≡ count_by is_parameter words.now }
{
    words
        .iter()
        .filter(|word| **word == ParameterWord::Parameter)
        .count()
}

impl<'a> ParameterText<'a> {
    /// Whether words are a parameter text that a macro may have.
    #[tactic(auto, using(crate::proofs::Wording::closing_any, crate::proofs::Wording::parameters_count))]
    pub fn may_be(words: &[ParameterWord]) -> bool
        ensures { result ≡ may_be words.now }
    {
        words.len() <= WORDS_LIMIT && parameters(words) <= PARAMETERS_LIMIT && !closes(words)
    }

    /// The words as a parameter text; where a macro may not have it, the text of no words.
    pub fn of(words: &'a [ParameterWord]) -> ParameterText<'a>
        ensures { result.words.now ≡ (if may_be words.now then words.now else []) }
    {
        ParameterText::try_from(words).unwrap_or(ParameterText { words: &[] })
    }
}

impl<'a> TryFrom<&'a [ParameterWord]> for ParameterText<'a> {
    type Error = NoText;

    ghost try_from_gives = { λ words r. MatchResult r (λ text. (may_be words.now ≡ true) × (text.words.now ≡ words.now)) (λ _. may_be words.now ≡ false) };

    fn try_from(words: &'a [ParameterWord]) -> Result<ParameterText<'a>, NoText> {
        if !ParameterText::may_be(words) {
            return Err(NoText);
        }
        Ok(ParameterText { words })
    }
}
