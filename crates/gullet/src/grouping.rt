ghost use Rattle.std.specs.Prelude.{◌≡◌};
ghost use Rattle.tokens.specs.declared.answer.Answer.TheVariants.{Opened, Closed};
ghost use Rattle.driving.specs.declared.status.Status.TheVariants.{Normal};
ghost use Rattle.book.specs.Books.{open_answer, after_open, close_answer, after_close};
ghost use Rattle.rules.specs.Refusals.{book};
ghost use Rattle.rules.specs.Stepping.{grouped};
ghost use Rattle.gullet.specs.Does.{Does, Unread};
ghost use Rattle.gullet.specs.Faults.{fault_at};
ghost use Rattle.gullet.specs.States.{place_of};

use crate::fault::{Cause, GulletFault};
use crate::parts::Gullet;
use book::BookFault;
use sources::Source;
use tokens::{Answer, GroupKind};

impl<S: Source> Gullet<S> {
    // A refusal by the book, at the present place. It stands beside `refusal`: a trait for the two causes would be longer.
    pub(crate) fn refused_by_book(&self, fault: BookFault) -> GulletFault
        ensures { result ≡ fault_at (place_of self.now) (record { cause = book fault; status = Normal }) }
    {
        Cause::Book(fault, self.source.place()).into()
    }

    // Opens a group, or is refused by the book.
    pub(crate) fn open_group(&mut self, kind: GroupKind) -> Result<Answer, GulletFault>
        ensures does { Does self.old self.new result (λ s r. grouped s r (Opened kind) (after_open kind s.book) (open_answer s.book)) }
        ensures below { Unread self.old self.new }
    {
        self.book
            .open(kind)
            .map_err(|fault| self.refused_by_book(fault))?;
        Ok(Answer::Opened(kind))
    }

    // Closes the innermost group, or is refused by the book.
    pub(crate) fn close_group(&mut self, kind: GroupKind) -> Result<Answer, GulletFault>
        ensures does { Does self.old self.new result (λ s r. grouped s r (Closed kind) (after_close kind s.book) (close_answer kind s.book)) }
        ensures below { Unread self.old self.new }
    {
        self.book
            .close(kind)
            .map_err(|fault| self.refused_by_book(fault))?;
        Ok(Answer::Closed(kind))
    }
}
