ghost use Rattle.std.specs.Prelude.{◌≡◌, ◌++◌};
ghost use Rattle.piles.specs.Helds.{held_tokens};
ghost use Rattle.piles.specs.Inserting.{put_back, put_answer, held_after};

use piles::{PUT_BACK_LIMIT, PutBack};
use sources::{PileFault, PileRefusal, Source};
use tokens::Token;

// Puts a result back, and in front of it the tokens that wait for it: all of them, or none.
pub(crate) fn put_behind<S: Source>(
    source: &mut PutBack<S>,
    waiting: &[Token],
    res: &[Token],
) -> Result<(), PileFault>
    ensures answer { result ≡ put_answer (S.Source.place source.old.below) (put_back (waiting.now ++ res.now) (held_tokens source.old.held)) }
    ensures held { held_tokens source.new.held ≡ held_after (held_tokens source.old.held) (put_back (waiting.now ++ res.now) (held_tokens source.old.held)) }
    ensures below { source.new.below ≡ source.old.below }
{
    let room = PUT_BACK_LIMIT.saturating_sub(source.held());
    if res.len() > room || waiting.len() > room - res.len() {
        return Err(PileFault::Pile(PileRefusal::PutBackFull, source.place()));
    }
    let _ = source.put_back(res);
    let _ = source.put_back(waiting);
    Ok(())
}
