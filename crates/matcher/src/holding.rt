ghost use Rattle.std.specs.Prelude.{◌≡◌, [], length, IfOk, vec_len};
ghost use Rattle.std.specs.Option.{option_map};
ghost use Rattle.std.specs.List.{slice_get};
ghost use Rattle.matcher.specs.Held.{arguments_of};

use crate::arguments::Arguments;
use buffers::Buffer;
use std::alloc::{AllocError, Global};
use tokens::Token;

impl Arguments {
    /// No arguments, and memory for those of any call.
    pub fn new(heap: Global) -> Result<Arguments, AllocError>
        ensures { IfOk result (λ a. arguments_of a ≡ []) }
    {
        Ok(Arguments {
            gathered: Buffer::new(heap)?,
            spans: Buffer::new(heap)?,
        })
    }

    /// How many arguments there are.
    pub fn len(&self) -> usize
        ensures { result ≡ length (arguments_of self.now) }
    {
        self.spans.held.len()
    }

    /// The tokens of an argument, from 0.
    pub fn get(&self, n: usize) -> Option<&[Token]>
        ensures { option_map (λ x. x.now) result ≡ slice_get (arguments_of self.now) n }
    {
        let span = self.spans.held.get(n)?;
        self.gathered.held.as_slice().get(span.from..span.to)
    }

    pub(crate) fn clear(&mut self)
        ensures arguments { arguments_of self.new ≡ [] }
        ensures empty { (vec_len self.new.gathered.held ≡ 0) × (vec_len self.new.spans.held ≡ 0) }
    {
        self.spans.held.clear();
        self.gathered.held.clear();
    }
}
