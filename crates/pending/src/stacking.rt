ghost use Rattle.std.specs.Prelude.{◌≡◌, [], length, is_ok, ◌==◌, nat_le, nat_lt};
ghost use Rattle.std.specs.Borrow.{sem, follows_if};
ghost use Rattle.std.specs.Option.{ghost_name_of as name_of, option_map};
ghost use Rattle.pending.specs.contracts.stack.Stack.{the_row as stack_row};
ghost use Rattle.pending.specs.Fronts.{front, behind, refronted, joining};
ghost use Rattle.pending.specs.Stacked.{items_of, with_newest};

use crate::stack::{Full, Stack};
use arrayvec::ArrayVec;
use std::mem;

impl<T: Copy + Default, const LIMIT: usize> Stack<T, LIMIT> {
    /// Nothing is on it yet.
    pub fn new() -> Self
        ensures { items_of result ≡ [] }
    {
        Stack {
            held: ArrayVec::new(),
        }
    }

    /// How many are on it.
    pub fn len(&self) -> usize
        ensures { result ≡ length (items_of self.now) }
    {
        self.held.len()
    }

    /// Whether none is on it.
    pub fn is_empty(&self) -> bool
        ensures { result ≡ (length (items_of self.now) == 0) }
    {
        self.held.is_empty()
    }

    /// Whether no more fit.
    pub fn is_full(&self) -> bool
        ensures { result ≡ nat_le LIMIT (length (items_of self.now)) }
    {
        self.held.is_full()
    }

    /// One more, which is then the newest; refused where no more fit.
    pub fn push(&mut self, item: T) -> Result<(), Full>
        ensures answer { is_ok result ≡ nat_lt (length (items_of self.old)) LIMIT }
        ensures items { items_of self.new ≡ joining LIMIT item (items_of self.old) }
    {
        self.held.try_push(item).map_err(|_| Full)
    }

    /// The newest, if there is one.
    pub fn last(&self) -> Option<T>
        ensures { result ≡ front (items_of self.now) }
    {
        self.held.last().copied()
    }

    /// The newest, lent to be changed. By its index: what is written through a loan of the whole slice is not known to come back.
    pub fn last_mut(&mut self) -> Option<&mut T>
        ensures* lent { sem 𝓛 (follows_if (stack_row T.row LIMIT.row) T.row self.entry.ghost_name (name_of result) (with_newest self.old) self.old) }
        ensures item { option_map (λ x. x.now) result ≡ front (items_of self.old) }
    {
        let last = self.held.len().checked_sub(1)?;
        self.held.get_mut(last)
    }

    /// Another in the place of the newest, if there is one: answers that.
    pub fn replace_last(&mut self, item: T) -> Option<T>
        ensures answer { result ≡ front (items_of self.old) }
        ensures items { items_of self.new ≡ refronted item (items_of self.old) }
    {
        let last = self.last_mut()?;
        Some(mem::replace(last, item))
    }

    /// Takes the newest away, and answers it.
    pub fn pop(&mut self) -> Option<T>
        ensures answer { result ≡ front (items_of self.old) }
        ensures items { items_of self.new ≡ behind (items_of self.old) }
    {
        self.held.pop()
    }

    /// Takes all away.
    pub fn clear(&mut self)
        ensures { items_of self.new ≡ [] }
    {
        self.held.clear();
    }
}
