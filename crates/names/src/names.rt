ghost use Rattle.std.specs.Prelude.{◌≡◌, ◌≤◌, take};
ghost use Rattle.indexmap.specs.IndexSet.{index_set_len};
ghost use Rattle.names.specs.Entries.{spellings};
ghost use Rattle.names.specs.Naming.{first_names};

use crate::table::Table;

/// The spellings that have numbers, those of the sixteen primitives first.
#[derive(Drop)]
pub struct Names {
    pub(crate) table: Table,
    ghost enough: { 16 ≤ index_set_len table.entries },
    ghost first: { take 16 (spellings table.entries.keys) ≡ first_names },
}
