ghost use Rattle.std.specs.Prelude.{◌≡◌, ℕ, ◌<◌, length, slice_index_or};
ghost use Rattle.tables.specs.Table.{records};
ghost use Rattle.book.specs.Books.{innermost};
ghost use Rattle.book.specs.Meanings.{shown};
ghost use Rattle.book.specs.Said.{book_of};

use crate::contents::Book;
use crate::meaning::Meaning;
use tokens::{Category, GroupKind};

impl Book {
    /// What a name means.
    pub fn meaning(&self, name: u16) -> Meaning<'_>
        ensures { shown result ≡ ((book_of self.now).names.table name).value }
    {
        self.words.meaning(self.names.value(name as usize))
    }

    /// The category of a code.
    pub fn category(&self, code: u8) -> Category
        ensures { result ≡ ((book_of self.now).codes.table code).value }
    {
        self.codes.value(code as usize)
    }

    /// The categories of all codes, from code 0 on.
    pub fn categories(&self) -> &[Category; 256]
        ensures count { length result.now ≡ 256 }
        ensures each { (k : ℕ) (d : Category) → k < 256 → slice_index_or result.now k d ≡ ((book_of self.now).codes.table k).value }
    {
        self.codes.entries.values.first_chunk().unwrap()
    }

    /// How many groups are open.
    pub fn depth(&self) -> usize
        ensures { result ≡ length (book_of self.now).groups }
    {
        self.kinds.held.len()
    }

    /// The kind of the innermost group.
    pub fn innermost(&self) -> Option<GroupKind>
        ensures { result ≡ innermost (book_of self.now).groups }
    {
        self.kinds.held.last().copied()
    }

    /// How many save records names have taken.
    pub fn name_records(&self) -> usize
        ensures { result ≡ records (book_of self.now).names }
    {
        self.names.records()
    }

    /// How many save records codes have taken.
    pub fn code_records(&self) -> usize
        ensures { result ≡ records (book_of self.now).codes }
    {
        self.codes.records()
    }

    /// How many words all definitions have used.
    pub fn words(&self) -> usize
        ensures { result ≡ (book_of self.now).words }
    {
        self.words.used()
    }
}
