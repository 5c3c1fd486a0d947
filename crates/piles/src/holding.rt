ghost use Rattle.std.specs.Prelude.{◌≡◌, ◌+◌, ◌≤◌, [], ◌++◌, length, IfNone, IfOk, nat_le};
ghost use Rattle.std.specs.Option.{option_to_list};
ghost use Rattle.piles.specs.Inserting.{tokens_in};
ghost use Rattle.piles.specs.Helds.{held_tokens};

use crate::held::{Held, PUT_BACK_LIMIT};
use buffers::Buffer;
use std::alloc::{AllocError, Global};
use tokens::Token;

impl Held {
    // Its own maker, since it has a view of its own.
    pub(crate) fn new(heap: Global) -> Result<Held, AllocError>
        ensures { IfOk result (λ h. held_tokens h ≡ []) }
    {
        Ok(Held {
            tokens: Buffer::new(heap)?,
        })
    }

    pub(crate) fn len(&self) -> usize
        ensures { result ≡ length (held_tokens self.now) }
    {
        self.tokens.held.len()
    }

    // Whether so many more may be put back.
    pub(crate) fn fits(&self, count: usize) -> bool
        ensures { result ≡ nat_le (count + length (held_tokens self.now)) 4096 }
    {
        count <= PUT_BACK_LIMIT - self.tokens.held.len()
    }

    // The next one, if there is one.
    pub(crate) fn take(&mut self) -> Option<Token>
        ensures items { held_tokens self.old ≡ option_to_list result ++ held_tokens self.new }
        ensures nothing { IfNone result (held_tokens self.new ≡ []) }
    {
        self.tokens.held.pop()
    }

    // Puts tokens in front, in their order.
    pub(crate) fn put(&mut self, tokens: &[Token])
        requires { length tokens.now + length (held_tokens self.old) ≤ 4096 }
        ensures { held_tokens self.new ≡ tokens.now ++ held_tokens self.old }
    {
        for token in tokens.iter().rev() {
            self.tokens.held.push_reserved(*token);
        }
    }

    // Puts the tokens of words in front, in their order. A loop of its own: one over any iterator would have to say what that yields.
    pub(crate) fn put_words(&mut self, words: &[u32])
        requires { length words.now + length (held_tokens self.old) ≤ 4096 }
        ensures { held_tokens self.new ≡ tokens_in words.now ++ held_tokens self.old }
    {
        for word in words.iter().rev() {
            if let Ok(token) = Token::try_from(*word) {
                self.tokens.held.push_reserved(token);
            }
        }
    }
}
