ghost use Rattle.std.specs.Prelude.{◌+◌};
ghost use Rattle.piles.specs.PutBacks.{put_back_ahead, put_back_place, PutBackReads};
ghost use Rattle.std.proofs.Common.{arith};
ghost use Rattle.std.proofs.lemmas.List.{length-reverse};
ghost use Rattle.piles.specs.Helds.{held_tokens};
ghost use Rattle.piles.specs.Front.{extent_ready};

use crate::held::PUT_BACK_LIMIT;
use crate::put_back::PutBack;
use names::Names;
use sources::{PileFault, Place, Source};
use tokens::{Category, Token};

impl<S: Source> Source for PutBack<S> {
    ghost ahead = { put_back_ahead S.Source.ahead };

    ghost place = { put_back_place S.Source.place };

    ghost reads = { PutBackReads S.Source.reads };

    ghost most = { 4096 + S.Source.most };

    ghost bounded = { λ s.
        let v = s.held.tokens.held in
        omega (
          arith,
          v.ok.0,
          s.held.few,
          length-reverse v.items,
          extent_ready (held_tokens s.held) (S.Source.ahead s.below),
          S.Source.bounded s.below,
        ) };

    fn read(
        &mut self,
        categories: &[Category; 256],
        names: &mut Names,
    ) -> Result<Option<Token>, PileFault> {
        match self.held.take() {
            Some(token) => Ok(Some(token)),
            None => self.below.read(categories, names),
        }
    }

    fn place(&self) -> Place {
        self.below.place()
    }

    fn most() -> Option<u64> {
        S::most()?.checked_add(PUT_BACK_LIMIT as u64)
    }
}
