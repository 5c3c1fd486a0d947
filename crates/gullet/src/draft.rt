ghost use Rattle.std.specs.Prelude.{◌≤◌, vec_len};
ghost use Rattle.gullet.specs.Stages.{depth_of};

use buffers::Buffer;
use std::alloc::{AllocError, Global};
use tokens::{BodyWord, ParameterWord};

// The most words of a definition.
pub(crate) const WORDS_LIMIT: usize = 2_048;

// A definition that is being read: its words so far, and where its reading is. All memory is taken at first.
#[derive(Drop)]
pub(crate) struct Draft {
    pub(crate) parameters: Buffer<ParameterWord, WORDS_LIMIT>,
    pub(crate) body: Buffer<BodyWord, WORDS_LIMIT>,
    pub(crate) stage: Stage,
    ghost few: { vec_len body.held ≤ 2048 },
    // the open braces are words of the body
    ghost deep: { depth_of stage ≤ vec_len body.held },
}

// Where the reading of a definition is: in the parameter text or the body, or behind a character of category 6 there,
// with how many parameters there are, and in the body how deep braces are. It is what the rules' phase is, and no step to run.
#[derive(Clone, Copy, Debug, PartialEq, Eq)]
pub(crate) enum Stage {
    InText { count: u8 },
    HashInText { count: u8 },
    InBody { count: u8, depth: u64 },
    HashInBody { count: u8, depth: u64 },
}

// What comes of reading a definition; once it is defined its words are in the draft.
#[derive(Clone, Copy, Debug, PartialEq, Eq)]
pub(crate) enum DefinitionEnd {
    Defined,
    Broken,
    TooLong,
}

impl Draft {
    pub(crate) fn new(heap: Global) -> Result<Draft, AllocError> {
        Ok(Draft {
            parameters: Buffer::new(heap)?,
            body: Buffer::new(heap)?,
            stage: Stage::InText { count: 0 },
        })
    }
}
