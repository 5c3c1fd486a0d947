ghost use Rattle.std.specs.Prelude.{◌≡◌, ◌+◌, ◌^◌, ◌<◌, true};
ghost use Rattle.gullet.specs.Idle.{is_normal};

use crate::draft::Draft;
use book::Book;
use buffers::Buffer;
use driving::Scan;
use expanding::Expansion;
use matcher::Arguments;
use names::Names;
use pending::{Conditionals, Tasks};
use piles::PutBack;
use sources::Source;
use tokens::Token;

/// A gullet over any source, with its own put-back on top. Between calls the scanning status is normal.
#[derive(Drop)]
pub struct Gullet<S: Source> {
    pub(crate) source: PutBack<S>,
    pub(crate) names: Names,
    pub(crate) book: Book,
    pub(crate) conditionals: Conditionals,
    pub(crate) tasks: Tasks,
    pub(crate) scan: Scan,
    // a call's arguments, and the body with them
    pub(crate) arguments: Arguments,
    pub(crate) expansion: Expansion,
    // a definition that is being read
    pub(crate) draft: Draft,
    // tokens that are about to be put back in front of a result
    pub(crate) waiting: Buffer<Token, 64>,
    ghost idle: { is_normal scan.status ≡ true },
    // the tokens ahead can be counted in 64 bits
    ghost countable: { 4096 + S.Source.most < 2 ^ 64 },
}
