ghost use Rattle.std.specs.Prelude.{◌≡◌, length, is_ok, nat_lt};
ghost use Rattle.pending.specs.declared.conditional.Part.TheVariants.{First, Second};
ghost use Rattle.pending.specs.Fronts.{front, behind, refronted, joining};
ghost use Rattle.pending.specs.Opened.{parts_of};

use crate::conditional::{Conditional, Conditionals, Part};
use crate::stack::Full;
use std::mem;

impl Conditionals {
    /// Begins one, in its first part; refused where no more may be open.
    pub fn begin(&mut self) -> Result<(), Full>
        ensures answer { is_ok result ≡ nat_lt (length (parts_of self.old)) 100 }
        ensures parts { parts_of self.new ≡ joining 100 First (parts_of self.old) }
    {
        self.push(Conditional { part: Part::First })
    }

    /// The part of the innermost.
    pub fn innermost_part(&self) -> Option<Part>
        ensures { result ≡ front (parts_of self.now) }
    {
        self.last().map(|innermost| innermost.part)
    }

    /// The innermost goes to its second part: answers the one in which it was.
    pub fn to_second(&mut self) -> Option<Part>
        ensures answer { result ≡ front (parts_of self.old) }
        ensures parts { parts_of self.new ≡ refronted Second (parts_of self.old) }
    {
        let innermost = self.last_mut()?;
        Some(mem::replace(&mut innermost.part, Part::Second))
    }

    /// Closes the innermost, and answers the part in which it was.
    pub fn finish(&mut self) -> Option<Part>
        ensures answer { result ≡ front (parts_of self.old) }
        ensures parts { parts_of self.new ≡ behind (parts_of self.old) }
    {
        self.pop().map(|closed| closed.part)
    }
}
