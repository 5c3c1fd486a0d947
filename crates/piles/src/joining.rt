ghost use Rattle.std.specs.Prelude.{◌≡◌, ◌+◌};
ghost use Rattle.piles.specs.declared.join.Side.TheVariants.{First};
ghost use Rattle.piles.specs.Joins.{join_ahead, join_place, JoinReads};
ghost use Rattle.std.proofs.Common.{arith};
ghost use Rattle.piles.specs.Behind.{extent_append};

use crate::join::{Join, Side};
use names::Names;
use sources::{PileFault, Place, Source};
use tokens::{Category, Token};

impl<A: Source, B: Source> Join<A, B> {
    /// Nothing is read yet: the place is the first side's.
    pub fn new(first: A, second: B) -> Join<A, B>
        ensures first { result.first ≡ first }
        ensures second { result.second ≡ second }
        ensures last { result.last ≡ First }
    {
        Join {
            first,
            second,
            last: Side::First,
        }
    }
}

impl<A: Source, B: Source> Source for Join<A, B> {
    ghost ahead = { join_ahead A.Source.ahead B.Source.ahead };

    ghost place = { join_place A.Source.place B.Source.place };

    ghost reads = { JoinReads A.Source.ahead A.Source.reads B.Source.reads };

    ghost most = { A.Source.most + B.Source.most };

    ghost bounded = { λ s.
        omega (
          arith,
          extent_append (A.Source.ahead s.first) (B.Source.ahead s.second),
          A.Source.bounded s.first,
          B.Source.bounded s.second,
        ) };

    fn read(
        &mut self,
        categories: &[Category; 256],
        names: &mut Names,
    ) -> Result<Option<Token>, PileFault> {
        self.last = Side::First;
        if let Some(token) = self.first.read(categories, names)? {
            return Ok(Some(token));
        }
        self.last = Side::Second;
        self.second.read(categories, names)
    }

    fn place(&self) -> Place {
        match self.last {
            Side::First => self.first.place(),
            Side::Second => self.second.place(),
        }
    }

    fn most() -> Option<u64> {
        A::most()?.checked_add(B::most()?)
    }
}
