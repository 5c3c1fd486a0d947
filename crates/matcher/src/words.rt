ghost use Rattle.std.specs.Prelude.{◌≡◌, ◌≤◌, length, take};
ghost use Rattle.std.specs.List.{prefix_len};
ghost use Rattle.matching.specs.Dividing.{parameters_of};
ghost use Rattle.matching.specs.Matching.{fewest};
ghost use Rattle.matcher.specs.Marks.{delimiter_in};
ghost use Rattle.matcher.specs.Words.{is_token};

use crate::delimiter::Delimiter;
use tokens::ParameterWord;

// How many tokens stand before the next parameter.
fn tokens_at(words: &[ParameterWord]) -> usize
    ensures { result ≡ prefix_len is_token words.now }
{
    words
        .iter()
        .take_while(|word| matches!(word, ParameterWord::Token(_)))
        .count()
}

// The tokens before the next parameter.
pub(crate) fn delimiter_at(words: &[ParameterWord]) -> Delimiter<'_>
    requires { length words.now ≤ 2048 }
    ensures { result.words.now ≡ take (length (delimiter_in words.now)) words.now }
{
    Delimiter {
        words: &words[..tokens_at(words)],
    }
}

// How many of the parameters are undelimited.
pub(crate) fn undelimited_in(words: &[ParameterWord]) -> usize
    ensures { result ≡ fewest (parameters_of words.now).delimiters }
{
    let mut count = 0;
    let mut rest = words;
    'words: while let Some((word, behind)) = rest.split_first() {
        if *word == ParameterWord::Parameter
            && !matches!(behind.first(), Some(ParameterWord::Token(_)))
        {
            count += 1;
        }
        rest = behind;
    }
    count
}
