ghost use Rattle.std.specs.Prelude.{◌≡◌, ◌+◌, ◌<◌, ◌≤◌, List, [], ◌∷◌, ◌++◌, length, drop, vec_len, vec_capacity, MatchBool};
ghost use Rattle.sources.specs.Texts.{made, first_line, after_line};
ghost use Rattle.sources.specs.Texted.{text_ahead, MadeText};

use crate::cursor::Cursor;
use crate::fault::{PileFault, PileRefusal, Place};
use crate::splitting::{blank_count, line_length};
use crate::text::{MakeFault, Text};
use std::alloc::Global;

const TEXT_LIMIT: usize = 65_536;

const END_OF_LINE: u8 = 13;

// Makes a line of the bytes that it keeps, in memory that has room for them: how much depends on the text, so no type says it.
fn make_line(line: &mut Vec<u8>, kept: &[u8])
    requires { length kept.now + 1 ≤ vec_capacity line.old }
    ensures items { line.new.items ≡ kept.now ++ 13 ∷ [] }
    ensures capacity { vec_capacity line.old ≤ vec_capacity line.new }
{
    line.clear();
    let _ = line.extend_from_slice(kept);
    line.push_reserved(END_OF_LINE);
}

// Makes the first line of what is not empty, and tells how many bytes it stands for, its end with it.
fn first_line(line: &mut Vec<u8>, rest: &[u8]) -> usize
    requires { length rest.now + 1 ≤ vec_capacity line.old }
    ensures items { line.new.items ≡ made (first_line rest.now) }
    ensures capacity { vec_capacity line.old ≤ vec_capacity line.new }
    ensures after { drop result rest.now ≡ after_line rest.now }
    ensures some { 0 < result }
    ensures within { result ≤ length rest.now + 1 }
{
    let count = line_length(rest);
    let kept = count - blank_count(&rest[..count]);
    make_line(line, &rest[..kept]);
    count + 1
}

impl Text {
    /// A text of at most 65,536 bytes, with all the memory that reading it takes.
    pub fn new(heap: Global, bytes: Vec<u8>) -> Result<Text, MakeFault>
        ensures { MadeText bytes.items result }
    {
        if bytes.len() > TEXT_LIMIT {
            let origin = Place { line: 0, bytes: 0 };
            return Err(PileFault::Pile(PileRefusal::TextTooLong, origin).into());
        }
        let line = Vec::with_capacity(heap, bytes.len() + 1)?;
        Ok(Text {
            bytes,
            next: 0,
            line,
            number: 0,
            cursor: Cursor::START,
        })
    }

    // Begins the next line, once this one is read to its end; false where there is none.
    pub(crate) fn begin_line(&mut self) -> bool
        requires { self.old.cursor.taken ≡ vec_len self.old.line }
        ensures ahead { text_ahead self.new ≡ text_ahead self.old }
        ensures bytes { self.new.bytes ≡ self.old.bytes }
        ensures test { MatchBool result ((self.old.next < self.new.next) × (self.old.next < vec_len self.old.bytes)) ((self.new.cursor.taken ≡ vec_len self.new.line) × (text_ahead self.new ≡ [])) }
    {
        if self.next >= self.bytes.len() {
            return false;
        }
        self.next += first_line(&mut self.line, &self.bytes[self.next..]);
        self.number += 1;
        self.cursor = Cursor::START;
        true
    }
}
