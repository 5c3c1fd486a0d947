ghost use Rattle.std.specs.Prelude.{◌≡◌};
ghost use Rattle.book.specs.Books.{name_answer, after_name};
ghost use Rattle.book.specs.Said.{book_of};
ghost use Rattle.rules.specs.Assigning.{let_as, letting};
ghost use Rattle.rules.specs.States.{meanings_of};
ghost use Rattle.rules.specs.Tokens.{meaning};
ghost use Rattle.gullet.specs.Does.{Does, Finds, ReadsOn, Unread};
ghost use Rattle.gullet.specs.Faults.{placed};
ghost use Rattle.gullet.specs.Targets.{named_ahead, target_of, let_named};

use crate::fault::GulletFault;
use crate::feeding::fed;
use crate::letting::Lets;
use crate::naming::Named;
use crate::parts::Gullet;
use book::{Book, BookFault, Plain};
use rules::{GulletRefusal, Letting};
use sources::Source;
use tokens::{Answer, Entry, Scope, Token};

// Gives a name what a token means now.
fn copy_meaning(book: &mut Book, name: u16, scope: Scope, token: Token) -> Result<(), BookFault>
    ensures answer { result ≡ name_answer scope name (meaning (meanings_of (book_of book.old)) token) (book_of book.old) }
    ensures state { book_of book.new ≡ after_name scope name (meaning (meanings_of (book_of book.old)) token) (book_of book.old) }
{
    match token {
        Token::Name(other) => book.assign_alike(name, other, scope),
        Token::Character(category, code) => {
            book.assign_meaning(name, Plain::Character(category, code), scope)
        }
    }
}

impl<S: Source> Gullet<S> {
    // The name behind \def, \gdef or \let.
    pub(crate) fn named_target(&mut self) -> Result<u16, GulletFault>
        ensures finds { Finds self.old self.new result (λ p d. placed p (target_of d)) named_ahead }
        ensures onward { ReadsOn self.old self.new }
    {
        let name = fed(&mut self.source, &self.book, &mut self.names, &Named, ())?;
        name.ok_or_else(|| self.refusal(GulletRefusal::BadDefinition))
    }

    // A name means what a token means now, and no task is under way any more.
    fn give_alike(&mut self, name: u16, scope: Scope, token: Token) -> Result<Answer, GulletFault>
        ensures does { Does self.old self.new result (λ s r. let_as s name scope token r) }
        ensures below { Unread self.old self.new }
    {
        let outcome = copy_meaning(&mut self.book, name, scope, token);
        outcome.map_err(|fault| self.refused_by_book(fault))?;
        self.tasks.clear();
        Ok(Answer::Assigned(scope, Entry::Name(name)))
    }

    // \let behind its name.
    fn let_token(&mut self, name: u16, scope: Scope) -> Result<Answer, GulletFault>
        ensures does { Does self.old self.new result (λ s r. let_named s r name scope) }
        ensures onward { ReadsOn self.old self.new }
    {
        let token = fed(
            &mut self.source,
            &self.book,
            &mut self.names,
            &Lets { book: &self.book },
            Letting::BeforeEquals,
        )?;
        self.give_alike(name, scope, token)
    }

    // \let.
    pub(crate) fn let_alike(&mut self, scope: Scope) -> Result<Answer, GulletFault>
        ensures does { Does self.old self.new result (λ s r. letting s r scope) }
        ensures onward { ReadsOn self.old self.new }
    {
        let name = self.named_target()?;
        self.let_token(name, scope)
    }
}
