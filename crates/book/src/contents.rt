ghost use Rattle.std.specs.Prelude.{◌≡◌, vec_len};
ghost use Rattle.tables.specs.Reading.{Holds};
ghost use Rattle.book.specs.Meanings.{within};
ghost use Rattle.book.specs.Tabled.{state_of, size, depth};
ghost use Rattle.book.specs.Beyond.{no_meaning};

use crate::grouped::Grouped;
use crate::grouping::GROUPS;
use crate::meaning::Held;
use crate::words::Words;
use buffers::Buffer;
use tokens::{Category, GroupKind};

/// What names mean and which category each code has, the kinds of the open groups, the outermost first, and the words of definitions.
#[derive(Drop)]
pub struct Book {
    pub(crate) names: Grouped<Held>,
    pub(crate) codes: Grouped<Category>,
    pub(crate) kinds: Buffer<GroupKind, GROUPS>,
    pub(crate) words: Words,
    ghost sized: { (size names ≡ 65536) × (size codes ≡ 256) },
    ghost level: { (depth names ≡ vec_len kinds.held) × (depth codes ≡ vec_len kinds.held) },
    ghost lying: { Holds (within (vec_len words.parameters.held) (vec_len words.bodies.held)) (state_of no_meaning names) },
}
