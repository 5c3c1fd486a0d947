ghost use Rattle.std.specs.Prelude.{◌≡◌, ◌<◌, IfOk, vec_len, slice_index_or};
ghost use Rattle.tables.specs.Table.{put, restored};

use std::alloc::{AllocError, Global};
use tables::{Entry, Saved};

// What each key from 0 on holds: its value, and its level, the depth of the group that it was assigned in locally, or 0.
// All values lie by themselves, since the categories of all codes are lent as one array.
#[derive(Drop)]
pub(crate) struct Entries<V: Copy> {
    pub(crate) values: Vec<V>,
    pub(crate) levels: Vec<u8>,
    ghost paired: { vec_len levels ≡ vec_len values },
}

impl<V: Copy> Entries<V> {
    ghost use Rattle.book.specs.Entried.{table_of, count};

    // The first values, one for each key from 0 on.
    pub(crate) fn new(heap: Global, values: Vec<V>) -> Result<Entries<V>, AllocError>
        ensures { IfOk result (λ e. ((d : Entry V) → d.level ≡ 0 → table_of d e ≡ (λ k. record { value = slice_index_or values.items k d.value; level = 0 })) × (count e ≡ vec_len values)) }
    {
        let levels = vec![in heap; 0u8; values.len()]?;
        Ok(Entries { values, levels })
    }

    pub(crate) fn get(&self, key: usize) -> Entry<V>
        requires { key < count self.now }
        ensures { (d : Entry V) → result ≡ table_of d self.now key }
    {
        Entry {
            value: self.values[key],
            level: self.levels[key],
        }
    }

    pub(crate) fn put(&mut self, key: usize, entry: Entry<V>)
        requires { key < count self.old }
        ensures table { (d : Entry V) → table_of d self.new ≡ put (table_of d self.old) key entry }
        ensures count { count self.new ≡ count self.old }
    {
        self.values[key] = entry.value;
        self.levels[key] = entry.level;
    }

    // Undoes one record: what its key held before comes back, unless the key's present value is global.
    pub(crate) fn restore(&mut self, old: Saved<V>)
        requires { old.key < count self.old }
        ensures table { (d : Entry V) → table_of d self.new ≡ restored old (table_of d self.old) }
        ensures count { count self.new ≡ count self.old }
    {
        if self.get(old.key).level != 0 {
            self.put(old.key, old.entry);
        }
    }
}
