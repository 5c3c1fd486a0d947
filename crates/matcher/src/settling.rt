ghost use Rattle.std.specs.Prelude.{◌≡◌, ◌<◌, ◌≤◌, length, take, drop, None, MatchOption};
ghost use Rattle.matching.specs.Braces.{deeper};
ghost use Rattle.matching.specs.Matching.{settled_from};
ghost use Rattle.matcher.specs.Marks.{delimiter_in, begins, Marked, moved};

use crate::delimiter::Delimiter;
use crate::depths::passed;
use crate::mark::Mark;
use crate::telling::is_par;
use tokens::{ParameterWord, Token};

// Whether a token stands at a place of a delimiter.
fn stands(delimiter: Delimiter<'_>, place: usize, token: Token) -> bool
    ensures { result ≡ begins token (delimiter_in (drop place delimiter.entry.words.now)) }
{
    delimiter.words.get(place) == Some(&ParameterWord::Token(token))
}

impl Mark {
    // The place behind the next token.
    fn moved(self, token: Token) -> Option<Mark>
        requires { (self.at < 65536) × (self.depth < 65536) }
        ensures { result ≡ moved self token }
    {
        let depth = passed(self.depth, token)?;
        Some(Mark {
            at: self.at + 1,
            depth,
            par: self.par || is_par(token),
        })
    }
}

// Moves a place on to the first one behind which all tokens begin the delimiter outside braces, or none are left.
pub(crate) fn settle(run: &[Token], delimiter: Delimiter<'_>, from: Mark) -> Option<Mark>
    requires marked { Marked run.now from.at from }
    requires short { length run.now ≤ 6145 }
    ensures { MatchOption result (deeper 0 (settled_from (delimiter_in delimiter.entry.words.now) (take from.at run.now) (drop from.at run.now)) ≡ None) (λ m. Marked run.now from.at m × (settled_from (delimiter_in delimiter.entry.words.now) (take from.at run.now) (drop from.at run.now) ≡ take m.at run.now)) }
{
    let mut mark = from;
    // Labelled loops: the place that is found breaks both.
    'place: loop {
        'delimiter: for (place, token) in run[mark.at..].iter().enumerate() {
            if mark.depth > 0 || !stands(delimiter, place, *token) {
                let Some(next) = mark.moved(run[mark.at]) else {
                    break 'place None;
                };
                mark = next;
                continue 'place;
            }
        }
        break 'place Some(mark);
    }
}
