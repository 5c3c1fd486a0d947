ghost use Rattle.book.specs.Said.{book_of};
ghost use Rattle.rules.specs.Assigning.{let_feed};
ghost use Rattle.rules.specs.States.{meanings_of};

use crate::automaton::Automaton;
use crate::telling::{is_equals, is_space};
use book::Book;
use rules::Letting;
use std::ops::ControlFlow;
use tokens::Token;

// Spaces, one = and one space are passed, and a token is taken.
#[derive(Clone, Copy)]
pub(crate) struct Lets<'a> {
    pub(crate) book: &'a Book,
}

impl Automaton for Lets<'_> {
    type Phase = Letting;

    type Outcome = Token;

    ghost feeds = { λ s. let_feed (meanings_of (book_of s.book.now)) };

    fn feed(&self, phase: Letting, token: Token) -> ControlFlow<Token, Letting> {
        match phase {
            Letting::BeforeEquals if is_space(self.book, token) => ControlFlow::Continue(phase),
            Letting::BeforeEquals if is_equals(token) => {
                ControlFlow::Continue(Letting::BehindEquals)
            }
            Letting::BehindEquals if is_space(self.book, token) => {
                ControlFlow::Continue(Letting::BehindSpace)
            }
            _ => ControlFlow::Break(token),
        }
    }
}
