ghost use Rattle.std.specs.Prelude.{◌+◌, ◌^◌, ◌<◌};
ghost use Rattle.book.specs.Said.{book_of};
ghost use Rattle.rules.specs.Skipping.{skip_feed};
ghost use Rattle.rules.specs.States.{meanings_of};

use crate::automaton::Automaton;
use crate::telling::meaning_of;
use book::{Book, Meaning, Primitive};
use rules::{Found, Until};
use std::ops::ControlFlow;
use tokens::Token;

// A skip: how deep it stands in conditionals is its phase.
#[derive(Clone, Copy)]
pub(crate) struct Skip<'a> {
    pub(crate) book: &'a Book,
    pub(crate) until: Until,
}

impl Automaton for Skip<'_> {
    type Phase = u64;

    type Outcome = Found;

    ghost feeds = { λ s. skip_feed (meanings_of (book_of s.book.now)) s.until };

    ghost held = { λ s d. d };

    ghost bears = { λ n. n + 1 < 2 ^ 64 };

    fn feed(&self, depth: u64, token: Token) -> ControlFlow<Found, u64> {
        match meaning_of(self.book, token) {
            Meaning::Primitive(Primitive::Ifx | Primitive::IfTrue | Primitive::IfFalse) => {
                ControlFlow::Continue(depth + 1)
            }
            Meaning::Primitive(Primitive::Else) if depth == 0 => match self.until {
                Until::ElseOrFi => ControlFlow::Break(Found::Else),
                Until::OnlyFi => ControlFlow::Continue(0),
            },
            Meaning::Primitive(Primitive::Fi) => match depth.checked_sub(1) {
                Some(less) => ControlFlow::Continue(less),
                None => ControlFlow::Break(Found::Fi),
            },
            _ => ControlFlow::Continue(depth),
        }
    }
}
