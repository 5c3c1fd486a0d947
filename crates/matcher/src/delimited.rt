ghost use Rattle.std.specs.Prelude.{◌≡◌, ◌+◌, ◌≤◌, [], length, drop, IfOk, vec_len, vec_capacity};
ghost use Rattle.names.specs.Spelled.{listed};
ghost use Rattle.matching.specs.Dividing.{stripped};
ghost use Rattle.matching.specs.Matching.{on, Progress, in_run, ended};
ghost use Rattle.matcher.specs.Going.{Goes};
ghost use Rattle.matcher.specs.Held.{Kept};
ghost use Rattle.matcher.specs.Hindering.{Under};
ghost use Rattle.matcher.specs.Marks.{delimiter_in};

use crate::arguments::Gathered;
use crate::delimiter::Delimiter;
use crate::mark::Mark;
use crate::settling::settle;
use crate::terms::Terms;
use calls::MatcherCause;
use driving::needed;
use matching::MatcherRefusal;
use names::Names;
use sources::Source;
use tokens::{Category, Token};

// Reads an argument up to its delimiter, and keeps its tokens, with the braces of a group; tells how many there are.
pub(crate) fn delimited<S: Source>(
    source: &mut S,
    categories: &[Category; 256],
    names: &mut Names,
    terms: Terms,
    delimiter: Delimiter<'_>,
    gathered: &mut Gathered,
) -> Result<usize, MatcherCause>
    requires held { vec_len gathered.old.held ≤ terms.counted }
    requires some { 1 ≤ length delimiter.words.now }
    ensures goes { (p : Progress) → Under terms p → Goes S.Source.reads S.Source.ahead S.Source.place categories.now terms.long (on (in_run p (delimiter_in delimiter.entry.words.now) [])) (listed names.old) source.old result (λ n. ended p (stripped (drop (vec_len gathered.old.held) gathered.new.held.items)) n) (listed names.new) source.new }
    ensures fits { IfOk result (λ n. (terms.counted + n + terms.few ≤ 4096) × (vec_len gathered.new.held ≡ vec_len gathered.old.held + n)) }
    ensures kept { Kept gathered.old.held gathered.new.held }
    ensures capacity { vec_capacity gathered.new.held ≡ vec_capacity gathered.old.held }
{
    let start = gathered.held.len();
    let width = delimiter.words.len();
    let mut at = 0;
    let mut depth = 0;
    'run: loop {
        let token = needed(source, categories, names)?;
        gathered.held.push_reserved(token);
        let mark = Mark {
            at,
            depth,
            par: false,
        };
        let Some(next) = settle(&gathered.held.as_slice()[start..], delimiter, mark) else {
            return Err(MatcherCause::Matcher(MatcherRefusal::Unmatched, source.place()));
        };
        terms
            .allow(next.par, next.at + next.depth)
            .map_err(|refusal| MatcherCause::Matcher(refusal, source.place()))?;
        at = next.at;
        depth = next.depth;
        if gathered.held.len() - start == at + width {
            gathered.held.truncate(start + at);
            return Ok(at);
        }
    }
}
