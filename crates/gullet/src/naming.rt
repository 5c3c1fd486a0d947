ghost use Rattle.rules.specs.Assigning.{name_feed};
ghost use Rattle.rules.specs.Expanding.{one_feed, two_feed};

use crate::automaton::Automaton;
use driving::is_blank;
use std::ops::ControlFlow;
use tokens::Token;

// A token is read.
#[derive(Clone, Copy, Debug, PartialEq, Eq)]
pub(crate) struct One;

// Two tokens are.
#[derive(Clone, Copy, Debug, PartialEq, Eq)]
pub(crate) struct Two;

// Blanks are skipped, and a name is taken, if one is there.
#[derive(Clone, Copy, Debug, PartialEq, Eq)]
pub(crate) struct Named;

impl Automaton for One {
    type Phase = ();

    type Outcome = Token;

    ghost feeds = { λ _. one_feed };

    fn feed(&self, _phase: (), token: Token) -> ControlFlow<Token> {
        ControlFlow::Break(token)
    }
}

impl Automaton for Two {
    type Phase = Option<Token>;

    type Outcome = (Token, Token);

    ghost feeds = { λ _. two_feed };

    fn feed(
        &self,
        phase: Option<Token>,
        token: Token,
    ) -> ControlFlow<(Token, Token), Option<Token>> {
        match phase {
            None => ControlFlow::Continue(Some(token)),
            Some(first) => ControlFlow::Break((first, token)),
        }
    }
}

impl Automaton for Named {
    type Phase = ();

    type Outcome = Option<u16>;

    ghost feeds = { λ _. name_feed };

    fn feed(&self, _phase: (), token: Token) -> ControlFlow<Option<u16>> {
        match token {
            Token::Name(number) => ControlFlow::Break(Some(number)),
            _ if is_blank(token) => ControlFlow::Continue(()),
            _ => ControlFlow::Break(None),
        }
    }
}
