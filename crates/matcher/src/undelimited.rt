ghost use Rattle.std.specs.Prelude.{◌≡◌, ◌+◌, ◌-◌, ◌≤◌, Bool, false, [], drop, IfOk, if◌then◌else◌, vec_len, vec_capacity, OnOk};
ghost use Rattle.names.specs.Spelled.{listed};
ghost use Rattle.matching.specs.Braces.{is_open, is_blank};
ghost use Rattle.matching.specs.Matching.{on, Progress, skipping, in_group, ended, feed};
ghost use Rattle.matcher.specs.Going.{Goes};
ghost use Rattle.matcher.specs.Held.{Kept};
ghost use Rattle.matcher.specs.Hindering.{Under};

use crate::arguments::Gathered;
use crate::depths::passed;
use crate::telling::is_par;
use crate::terms::Terms;
use calls::MatcherCause;
use driving::{is_blank, is_close, is_open, needed};
use matching::MatcherRefusal;
use names::Names;
use sources::Source;
use tokens::{Category, Token};

// Reads the first token that is not blank.
fn unblanked<S: Source>(
    source: &mut S,
    categories: &[Category; 256],
    names: &mut Names,
) -> Result<Token, MatcherCause>
    ensures goes { (long : Bool) (p : Progress) → Goes S.Source.reads S.Source.ahead S.Source.place categories.now long (on (skipping p)) (listed names.old) source.old result (λ t. feed long (skipping p) t) (listed names.new) source.new }
    ensures plain { IfOk result (λ t. is_blank t ≡ false) }
{
    'blanks: loop {
        let token = needed(source, categories, names)?;
        if !is_blank(token) {
            return Ok(token);
        }
    }
}

// Reads a group behind its opening brace, and keeps its tokens without the closing brace. That all tokens held are counted is
// said in each contract: a name for that would be as long.
fn group<S: Source>(
    source: &mut S,
    categories: &[Category; 256],
    names: &mut Names,
    terms: Terms,
    gathered: &mut Gathered,
) -> Result<(), MatcherCause>
    requires held { vec_len gathered.old.held ≤ terms.counted }
    requires fits { terms.counted + 2 + terms.few ≤ 4096 }
    ensures goes { (p : Progress) → Under terms p → Goes S.Source.reads S.Source.ahead S.Source.place categories.now terms.long (on (in_group p [])) (listed names.old) source.old result (λ _. ended p (drop (vec_len gathered.old.held) gathered.new.held.items) (vec_len gathered.new.held - vec_len gathered.old.held + 2)) (listed names.new) source.new }
    ensures fits { OnOk result (terms.counted + (vec_len gathered.new.held - vec_len gathered.old.held + 2) + terms.few ≤ 4096) }
    ensures kept { Kept gathered.old.held gathered.new.held }
    ensures capacity { vec_capacity gathered.new.held ≡ vec_capacity gathered.old.held }
{
    let start = gathered.held.len();
    let mut depth = 0;
    'group: loop {
        let token = needed(source, categories, names)?;
        let Some(deeper) = passed(depth, token) else {
            return Ok(());
        };
        terms
            .allow(is_par(token), gathered.held.len() - start + 3 + deeper)
            .map_err(|refusal| MatcherCause::Matcher(refusal, source.place()))?;
        gathered.held.push_reserved(token);
        depth = deeper;
    }
}

// How many tokens count at least for an undelimited argument that begins with this one.
fn least(token: Token) -> usize
    ensures value { result ≡ (if is_open token then 2 else 1) }
    ensures few { result ≤ 2 }
{
    if is_open(token) { 2 } else { 1 }
}

// Reads an undelimited argument, and keeps its tokens; tells how many count for it.
pub(crate) fn undelimited<S: Source>(
    source: &mut S,
    categories: &[Category; 256],
    names: &mut Names,
    terms: Terms,
    gathered: &mut Gathered,
) -> Result<usize, MatcherCause>
    requires held { vec_len gathered.old.held ≤ terms.counted }
    ensures goes { (p : Progress) → Under terms p → Goes S.Source.reads S.Source.ahead S.Source.place categories.now terms.long (on (skipping p)) (listed names.old) source.old result (λ n. ended p (drop (vec_len gathered.old.held) gathered.new.held.items) n) (listed names.new) source.new }
    ensures fits { IfOk result (λ n. (terms.counted + n + terms.few ≤ 4096) × (vec_len gathered.new.held ≤ vec_len gathered.old.held + n)) }
    ensures kept { Kept gathered.old.held gathered.new.held }
    ensures capacity { vec_capacity gathered.new.held ≡ vec_capacity gathered.old.held }
{
    let token = unblanked(source, categories, names)?;
    if is_close(token) {
        return Err(MatcherCause::Matcher(MatcherRefusal::Unmatched, source.place()));
    }
    terms
        .allow(is_par(token), least(token))
        .map_err(|refusal| MatcherCause::Matcher(refusal, source.place()))?;
    let start = gathered.held.len();
    if is_open(token) {
        group(source, categories, names, terms, gathered)?;
        return Ok(gathered.held.len() - start + 2);
    }
    gathered.held.push_reserved(token);
    Ok(1)
}
