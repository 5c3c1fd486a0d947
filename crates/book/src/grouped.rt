ghost use Rattle.std.specs.Prelude.{◌≡◌, ◌≤◌, true, reverse, vec_len};
ghost use Rattle.book.specs.Bases.{bounded, keys_below};
ghost use Rattle.book.specs.Entried.{count};

use crate::entries::Entries;
use crate::grouping::{GROUPS, RECORDS};
use buffers::Buffer;
use tables::Saved;

// One use of the grouped table: what each key holds, and the save records of all open groups, oldest first; a base tells
// where those of its group begin.
#[derive(Drop)]
pub(crate) struct Grouped<V: Copy> {
    pub(crate) entries: Entries<V>,
    pub(crate) saved: Buffer<Saved<V>, RECORDS>,
    pub(crate) bases: Buffer<usize, GROUPS>,
    ghost keyed: { keys_below (count entries) saved.held.items ≡ true },
    ghost based: { bounded (vec_len saved.held) (reverse bases.held.items) ≡ true },
    ghost records: { vec_len saved.held ≤ 2048 },
    ghost groups: { vec_len bases.held ≤ 250 },
}
