use buffers::Buffer;
use tokens::Token;

// The most tokens of a macro's expansion.
pub(crate) const EXPANSION_LIMIT: usize = 4_096;

/// Space for a macro's expansion. All memory is taken at first.
#[derive(Drop)]
pub struct Expansion {
    pub(crate) tokens: Buffer<Token, EXPANSION_LIMIT>,
}

/// There are over 4,096 tokens.
#[derive(Clone, Copy, Debug, PartialEq, Eq)]
pub struct TooLong;
