ghost use Rattle.std.specs.Prelude.{◌≡◌, ◌≤◌, true, vec_len, vec_capacity};
ghost use Rattle.matcher.specs.Spans.{all_within};

use crate::span::Span;
use crate::text::PARAMETERS_LIMIT;
use buffers::Buffer;
use tokens::Token;

// The most tokens at a time: 4,096 that count for a call, 2,048 of a delimiter that may yet not be one, and one to spare.
pub(crate) const TOKENS_LIMIT: usize = 6_145;

pub(crate) type Gathered = Buffer<Token, TOKENS_LIMIT>;

/// A call's arguments: their tokens one behind another, and where each stands. All memory is taken at first.
#[derive(Drop)]
pub struct Arguments {
    pub(crate) gathered: Gathered,
    pub(crate) spans: Buffer<Span, PARAMETERS_LIMIT>,
    ghost room: { 6145 ≤ vec_capacity gathered.held },
    ghost places: { 9 ≤ vec_capacity spans.held },
    ghost within: { all_within (vec_len gathered.held) spans.held.items ≡ true },
}
