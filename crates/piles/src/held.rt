ghost use Rattle.std.specs.Prelude.{◌≤◌, vec_len};

use buffers::Buffer;
use tokens::Token;

/// The most tokens that may be put back at a time.
pub const PUT_BACK_LIMIT: usize = 4_096;

// Tokens to be read again, the next one last.
#[derive(Drop)]
pub(crate) struct Held {
    pub(crate) tokens: Buffer<Token, PUT_BACK_LIMIT>,
    ghost few: { vec_len tokens.held ≤ 4096 },
}
