ghost use Rattle.names.specs.Spelled.{listed};
ghost use Rattle.driving.specs.Streams.{stream, Takes};

use names::Names;
use sources::{PileFault, PileRefusal, Source};
use tokens::{Category, Token};

/// The next token, where one is needed: with nothing ahead it is refused 25.
/// Three parameters. One struct of them was tried: then each contract, and each loop, has to say that its borrows stay the same ones.
pub fn needed<S: Source>(
    source: &mut S,
    categories: &[Category; 256],
    names: &mut Names,
) -> Result<Token, PileFault>
    ensures takes { Takes categories.now (stream categories.now (listed names.old) (S.Source.ahead source.old)) (S.Source.place source.new) result (listed names.new) (S.Source.ahead source.new) }
    ensures reads { S.Source.reads categories.now (listed names.old) source.old source.new }
{
    source
        .read(categories, names)?
        .ok_or_else(|| PileFault::Pile(PileRefusal::Ended, source.place()))
}
