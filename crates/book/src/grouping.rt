ghost use Rattle.std.specs.Prelude.{◌≡◌, ◌+◌, ◌-◌, ◌<◌, ◌≤◌, true, reverse, take, drop, IfOk, vec_len, vec_capacity, slice_index_or};
ghost use Rattle.tables.specs.Table.{put, undone, opened, closed, tried, records, needs_record, recorded, assign_locally, new as new_table};
ghost use Rattle.book.specs.Bases.{keys_below};
ghost use Rattle.book.specs.Scopes.{operation, record_answer};
ghost use Rattle.book.specs.Entried.{table_of, count};
ghost use Rattle.book.specs.Tabled.{state_of, size, depth, Becomes, IsAsWide};

use crate::entries::Entries;
use crate::fault::BookFault;
use crate::grouped::Grouped;
use buffers::Buffer;
use std::alloc::{AllocError, Global};
use tables::{Entry, Saved};
use tokens::Scope;

// The most save records of one use.
pub(crate) const RECORDS: usize = 2048;

// The most groups that can be open.
pub(crate) const GROUPS: usize = 250;

// Undoes the records from a base on, the newest first, and frees them. A loan of the vector in a buffer, so its room is said again.
fn undo<V: Copy>(entries: &mut Entries<V>, saved: &mut Vec<Saved<V>>, base: usize)
    requires keyed { keys_below (count entries.old) saved.old.items ≡ true }
    requires within { base ≤ vec_len saved.old }
    ensures table { (d : Entry V) → table_of d entries.new ≡ undone (reverse (drop base saved.old.items)) (table_of d entries.old) }
    ensures records { saved.new.items ≡ take base saved.old.items }
    ensures sizes { (count entries.new ≡ count entries.old) × (vec_capacity saved.new ≡ vec_capacity saved.old) }
{
    for old in saved[base..].iter().rev() {
        entries.restore(*old);
    }
    saved.truncate(base);
}

// Each function says that its key is below the size: a name for that would be as long.
impl<V: Copy> Grouped<V> {
    // A table with its first values, one for each key from 0 on. All its memory is taken here.
    pub(crate) fn new(heap: Global, values: Vec<V>) -> Result<Grouped<V>, AllocError>
        ensures { IfOk result (λ t. ((d : Entry V) → d.level ≡ 0 → state_of d t ≡ new_table (λ k. slice_index_or values.items k d.value)) × (size t ≡ vec_len values) × (depth t ≡ 0)) }
    {
        Ok(Grouped {
            entries: Entries::new(heap, values)?,
            saved: Buffer::new(heap)?,
            bases: Buffer::new(heap)?,
        })
    }

    pub(crate) fn value(&self, key: usize) -> V
        requires { key < size self.now }
        ensures { (d : Entry V) → result ≡ ((state_of d self.now).table key).value }
    {
        self.entries.get(key).value
    }

    // Gives a key an entry.
    fn put(&mut self, key: usize, entry: Entry<V>)
        requires { key < size self.old }
        ensures state { Becomes self.old self.new (λ s. record { table = put s.table key entry; groups = s.groups }) }
        ensures sizes { IsAsWide self.old self.new }
    {
        self.entries.put(key, entry);
    }

    // How many save records are taken.
    pub(crate) fn records(&self) -> usize
        ensures { (d : Entry V) → result ≡ records (state_of d self.now) }
    {
        self.saved.held.len()
    }

    // In a group, unless the present value was assigned locally in that same group.
    fn needs_record(&self, key: usize) -> bool
        requires { key < size self.now }
        ensures answer { (d : Entry V) → result ≡ needs_record (state_of d self.now) key }
        ensures inside { result ≡ true → 0 < depth self.now }
    {
        let depth = self.bases.held.len();
        depth > 0 && self.entries.get(key).level as usize != depth
    }

    // Takes a record of what a key holds, for the innermost group.
    fn save(&mut self, key: usize)
        requires within { key < size self.old }
        requires inside { 0 < depth self.old }
        requires room { vec_len self.old.saved.held < 2048 }
        ensures state { Becomes self.old self.new (λ s. record { table = s.table; groups = recorded (record { key = key; entry = s.table key }) s.groups }) }
        ensures sizes { IsAsWide self.old self.new }
    {
        let entry = self.entries.get(key);
        self.saved.held.push_reserved(Saved { key, entry });
    }

    // Assigns for the innermost group, with a record if one is needed; refused if none is left.
    fn assign_locally(&mut self, key: usize, value: V) -> Result<(), BookFault>
        requires { key < size self.old }
        ensures answer { (d : Entry V) → result ≡ record_answer (state_of d self.old) (assign_locally key value) }
        ensures state { Becomes self.old self.new (λ s. tried 2048 s (assign_locally key value)) }
        ensures sizes { IsAsWide self.old self.new }
    {
        let level = self.bases.held.len() as u8;
        if self.needs_record(key) {
            if self.saved.held.len() >= RECORDS {
                return Err(BookFault::RecordsFull);
            }
            self.save(key);
        }
        self.put(key, Entry { value, level });
        Ok(())
    }

    // Assigns in a scope; a global assignment takes no record.
    pub(crate) fn assign(&mut self, key: usize, value: V, scope: Scope) -> Result<(), BookFault>
        requires { key < size self.old }
        ensures answer { (d : Entry V) → result ≡ record_answer (state_of d self.old) (operation scope key value) }
        ensures state { Becomes self.old self.new (λ s. tried 2048 s (operation scope key value)) }
        ensures sizes { IsAsWide self.old self.new }
    {
        match scope {
            Scope::Local => self.assign_locally(key, value),
            Scope::Global => {
                self.put(key, Entry { value, level: 0 });
                Ok(())
            }
        }
    }

    // Opens a group, which has no records yet.
    pub(crate) fn open(&mut self)
        requires { depth self.old < 250 }
        ensures state { Becomes self.old self.new opened }
        ensures sizes { (size self.new ≡ size self.old) × (depth self.new ≡ depth self.old + 1) }
    {
        let base = self.saved.held.len();
        self.bases.held.push_reserved(base);
    }

    // Closes the innermost group, if one is open: undoes its records.
    pub(crate) fn close(&mut self)
        ensures state { Becomes self.old self.new closed }
        ensures sizes { (size self.new ≡ size self.old) × (depth self.new ≡ depth self.old - 1) }
    {
        if let Some(base) = self.bases.held.pop() {
            undo(&mut self.entries, &mut self.saved.held, base);
        }
    }
}
