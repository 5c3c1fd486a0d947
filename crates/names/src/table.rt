ghost use Rattle.std.specs.Prelude.{◌+◌, ◌≤◌};
ghost use Rattle.indexmap.specs.IndexSet.{index_set_len, spare};
ghost use Rattle.names.specs.Naming.{Distinct};
ghost use Rattle.names.specs.Entries.{spellings};

use crate::spelling::Spelling;
use indexmap::IndexSet;

// The number of the first spelling; those below it are the active characters'.
pub(crate) const FIRST_NUMBER: u16 = 256;

// The most spellings: the numbers end below 1,024.
pub(crate) const SPELLINGS_LIMIT: usize = 768;

// How many hints there are.
pub(crate) const HINTS: usize = 1_024;

// Spellings in the order in which they were entered, with memory for all.
#[derive(Drop)]
pub(crate) struct Table {
    pub(crate) entries: IndexSet<Spelling>,
    // where to look first for a spelling of one or two bytes; what stands there may be another
    pub(crate) hints: [u16; HINTS],
    ghost few: { index_set_len entries ≤ 768 },
    ghost room: { 768 ≤ index_set_len entries + spare entries },
    ghost distinct: { Distinct (spellings entries.keys) },
}
