ghost use Rattle.std.specs.Prelude.{◌≡◌, [], length, IfOk};
ghost use Rattle.names.specs.Spelled.{listed};
ghost use Rattle.sources.specs.declared.fault.PileFault.TheVariants.{Pile};
ghost use Rattle.piles.specs.Inserting.{put_back, insert, put_answer, held_after};
ghost use Rattle.piles.specs.Helds.{held_tokens};

use crate::held::Held;
use crate::put_back::PutBack;
use crate::words::first_bad;
use names::Names;
use sources::{PileFault, PileRefusal, Source};
use std::alloc::{AllocError, Global};
use tokens::Token;

impl<S: Source> PutBack<S> {
    /// Nothing is put back yet; there is memory for all that may be.
    pub fn new(heap: Global, below: S) -> Result<PutBack<S>, AllocError>
    where
        S: Drop,
        ensures { IfOk result (λ p. (held_tokens p.held ≡ []) × (p.below ≡ below)) }
    {
        Ok(PutBack {
            held: Held::new(heap)?,
            below,
        })
    }

    /// Puts tokens in front, in their order: all of them, or none where they do not fit.
    pub fn put_back(&mut self, tokens: &[Token]) -> Result<(), PileFault>
        ensures answer { result ≡ put_answer (S.Source.place self.old.below) (put_back tokens.now (held_tokens self.old.held)) }
        ensures held { held_tokens self.new.held ≡ held_after (held_tokens self.old.held) (put_back tokens.now (held_tokens self.old.held)) }
        ensures below { self.new.below ≡ self.old.below }
    {
        if !self.held.fits(tokens.len()) {
            return Err(self.refused(PileRefusal::PutBackFull));
        }
        self.held.put(tokens);
        Ok(())
    }

    /// Puts words from outside in front, in their order, once each is known to be a token's.
    pub fn insert(&mut self, words: &[u32], names: &Names) -> Result<(), PileFault>
        ensures answer { result ≡ put_answer (S.Source.place self.old.below) (insert (listed names.now) words.now (held_tokens self.old.held)) }
        ensures held { held_tokens self.new.held ≡ held_after (held_tokens self.old.held) (insert (listed names.now) words.now (held_tokens self.old.held)) }
        ensures below { self.new.below ≡ self.old.below }
    {
        if first_bad(words, names).is_some() {
            return Err(self.refused(PileRefusal::NoToken));
        }
        if !self.held.fits(words.len()) {
            return Err(self.refused(PileRefusal::PutBackFull));
        }
        self.held.put_words(words);
        Ok(())
    }

    /// How many tokens are put back.
    pub fn held(&self) -> usize
        ensures { result ≡ length (held_tokens self.now.held) }
    {
        self.held.len()
    }

    // A refusal at the place below.
    fn refused(&self, refusal: PileRefusal) -> PileFault
        ensures { result ≡ Pile refusal (S.Source.place self.now.below) }
    {
        PileFault::Pile(refusal, self.below.place())
    }
}
