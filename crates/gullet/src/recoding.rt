ghost use Rattle.std.specs.Prelude.{◌≡◌};
ghost use Rattle.names.specs.Spelled.{listed};
ghost use Rattle.rules.specs.Assigning.{subject_feed, number_feed, one_digit, byte_of};
ghost use Rattle.gullet.specs.Automata.{meant};

use crate::automaton::Automaton;
use crate::telling::{digit_of, is_equals, is_quote};
use names::Names;
use rules::{Number, Subject};
use std::ops::ControlFlow;
use tokens::Token;

// The quote of \catcode, and the token behind it.
#[derive(Clone, Copy, Debug, PartialEq, Eq)]
pub(crate) struct Subjects;

// An optional = and digits up to 15, with the token behind them.
#[derive(Clone, Copy, Debug, PartialEq, Eq)]
pub(crate) struct Numbers;

impl Automaton for Subjects {
    type Phase = Subject;

    type Outcome = Option<Token>;

    ghost feeds = { λ _. subject_feed };

    fn feed(&self, phase: Subject, token: Token) -> ControlFlow<Option<Token>, Subject> {
        match phase {
            Subject::BeforeQuote if is_quote(token) => ControlFlow::Continue(Subject::BehindQuote),
            Subject::BeforeQuote => ControlFlow::Break(None),
            Subject::BehindQuote => ControlFlow::Break(Some(token)),
        }
    }
}

// One digit more, if the number stays within 15.
fn one_digit(value: u8, digit: u8) -> ControlFlow<Option<(u8, Token)>, Number>
    ensures { meant result ≡ one_digit value digit }
{
    let number = u16::from(value) * 10 + u16::from(digit);
    if number <= 15 {
        ControlFlow::Continue(Number::InDigits(number as u8))
    } else {
        ControlFlow::Break(None)
    }
}

impl Automaton for Numbers {
    type Phase = Number;

    type Outcome = Option<(u8, Token)>;

    ghost feeds = { λ _. number_feed };

    fn feed(&self, phase: Number, token: Token) -> ControlFlow<Option<(u8, Token)>, Number> {
        match (phase, digit_of(token)) {
            (Number::BeforeNumber, _) if is_equals(token) => {
                ControlFlow::Continue(Number::BeforeDigit)
            }
            (Number::InDigits(value), Some(digit)) => one_digit(value, digit),
            (Number::InDigits(value), None) => ControlFlow::Break(Some((value, token))),
            (_, Some(digit)) => one_digit(0, digit),
            (_, None) => ControlFlow::Break(None),
        }
    }
}

// The code that a token stands for: a character's, an active one's, that of a name of one byte.
pub(crate) fn byte_of(names: &Names, token: Token) -> Option<u8>
    ensures { result ≡ byte_of (listed names.now) token }
{
    match token {
        Token::Character(_, code) => Some(code),
        Token::Name(number) => {
            if let Ok(code) = u8::try_from(number) {
                return Some(code);
            }
            match names.spelling(number)? {
                [code] => Some(*code),
                _ => None,
            }
        }
    }
}
