ghost use Rattle.std.specs.Prelude.{◌+◌, ◌≤◌, vec_len};

use crate::wording::WORDS;
use buffers::Buffer;
use tokens::{BodyWord, ParameterWord};

// The words of all definitions, those of parameter texts and those of bodies, at most 16,384 together. Their memory is taken
// when the book is made, so a macro has spans in them and no vectors of its own.
#[derive(Drop)]
pub(crate) struct Words {
    pub(crate) parameters: Buffer<ParameterWord, WORDS>,
    pub(crate) bodies: Buffer<BodyWord, WORDS>,
    ghost used: { vec_len parameters.held + vec_len bodies.held ≤ 16384 },
}
