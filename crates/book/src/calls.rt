ghost use Rattle.std.specs.Prelude.{◌≡◌, ◌+◌, ◌<◌, ◌≤◌, true, IfOk, Ok, vec_len, OnOk};
ghost use Rattle.book.specs.Books.{is_innermost, new_book, open_answer, after_open, close_answer, after_close, name_answer, after_name, code_answer, after_code, if_room, define_answer, after_define};
ghost use Rattle.book.specs.Meanings.{plain};
ghost use Rattle.book.specs.Said.{book_of};

use crate::contents::Book;
use crate::fault::BookFault;
use crate::first::{first_categories, first_meanings};
use crate::grouped::Grouped;
use crate::grouping::GROUPS;
use crate::meaning::{Held, Plain};
use crate::wording::WORDS;
use crate::words::Words;
use buffers::Buffer;
use std::alloc::{AllocError, Global};
use tokens::{BodyWord, Category, GroupKind, ParameterWord, Scope};

// The most words of one definition.
const DEFINITION: usize = 2048;

impl Book {
    /// A new book. All the memory that it will ever use is taken here.
    pub fn new(heap: Global) -> Result<Book, AllocError>
        ensures { IfOk result (λ b. book_of b ≡ new_book) }
    {
        let names = Grouped::new(heap, first_meanings(heap)?)?;
        let codes = Grouped::new(heap, first_categories(heap)?)?;
        let kinds = Buffer::new(heap)?;
        let words = Words::new(heap)?;
        Ok(Book {
            names,
            codes,
            kinds,
            words,
        })
    }

    /// Opens a group, for names and codes alike.
    pub fn open(&mut self, kind: GroupKind) -> Result<(), BookFault>
        ensures answer { result ≡ open_answer (book_of self.old) }
        ensures state { book_of self.new ≡ after_open kind (book_of self.old) }
    {
        if self.kinds.held.len() >= GROUPS {
            return Err(BookFault::GroupsFull);
        }
        self.names.open();
        self.codes.open();
        self.kinds.held.push_reserved(kind);
        Ok(())
    }

    // Whether the innermost group is of a kind.
    fn is_innermost(&self, kind: GroupKind) -> bool
        ensures answer { result ≡ is_innermost kind (book_of self.now).groups }
        ensures inside { result ≡ true → 0 < vec_len self.now.kinds.held }
    {
        self.innermost() == Some(kind)
    }

    /// Closes the innermost group, if it is of the kind, for names and codes alike.
    pub fn close(&mut self, kind: GroupKind) -> Result<(), BookFault>
        ensures answer { result ≡ close_answer kind (book_of self.old) }
        ensures state { book_of self.new ≡ after_close kind (book_of self.old) }
    {
        if !self.is_innermost(kind) {
            return Err(BookFault::WrongGroup);
        }
        self.names.close();
        self.codes.close();
        let _ = self.kinds.held.pop();
        Ok(())
    }

    /// Gives a code a category.
    pub fn assign_category(
        &mut self,
        code: u8,
        category: Category,
        scope: Scope,
    ) -> Result<(), BookFault>
        ensures answer { result ≡ code_answer scope code category (book_of self.old) }
        ensures state { book_of self.new ≡ after_code scope code category (book_of self.old) }
    {
        self.codes.assign(code as usize, category, scope)
    }

    /// Gives a name a meaning without words.
    pub fn assign_meaning(
        &mut self,
        name: u16,
        meaning: Plain,
        scope: Scope,
    ) -> Result<(), BookFault>
        ensures answer { result ≡ name_answer scope name (plain meaning) (book_of self.old) }
        ensures state { book_of self.new ≡ after_name scope name (plain meaning) (book_of self.old) }
    {
        self.names
            .assign(name as usize, Held::Plain(meaning), scope)
    }

    /// Gives a name what another name means now. A macro's words are shared.
    pub fn assign_alike(&mut self, name: u16, other: u16, scope: Scope) -> Result<(), BookFault>
        ensures answer { result ≡ name_answer scope name ((book_of self.old).names.table other).value (book_of self.old) }
        ensures state { book_of self.new ≡ after_name scope name ((book_of self.old).names.table other).value (book_of self.old) }
    {
        let held = self.names.value(other as usize);
        self.names.assign(name as usize, held, scope)
    }

    // Whether a definition of so many words is too long, or finds no room.
    fn room_for(&self, parameters: usize, body: usize) -> Result<(), BookFault>
        ensures answer { result ≡ if_room (parameters + body) (book_of self.now) (Ok tt) }
        ensures room { OnOk result ((book_of self.now).words + (parameters + body) ≤ 16384) }
    {
        if parameters > DEFINITION || body > DEFINITION - parameters {
            return Err(BookFault::DefinitionTooLong);
        }
        if parameters + body > WORDS - self.words.used() {
            return Err(BookFault::WordsFull);
        }
        Ok(())
    }

    /// Gives a name a macro: long or not, a parameter text and a body.
    pub fn define(
        &mut self,
        name: u16,
        long: bool,
        parameters: &[ParameterWord],
        body: &[BodyWord],
        scope: Scope,
    ) -> Result<(), BookFault>
        ensures answer { result ≡ define_answer scope name long parameters.now body.now (book_of self.old) }
        ensures state { book_of self.new ≡ after_define scope name long parameters.now body.now (book_of self.old) }
    {
        self.room_for(parameters.len(), body.len())?;
        let place = self.words.next(long, parameters.len(), body.len());
        self.names.assign(name as usize, Held::Macro(place), scope)?;
        self.words.add(parameters, body);
        Ok(())
    }
}
