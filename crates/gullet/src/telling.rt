// Tests of tokens. Each is one line, and has the name that the rules have for it.
ghost use Rattle.std.specs.Prelude.{◌≡◌, ◌≤◌};
ghost use Rattle.book.specs.Meanings.{shown};
ghost use Rattle.book.specs.Said.{book_of};
ghost use Rattle.rules.specs.States.{meanings_of};
ghost use Rattle.rules.specs.Tokens.{meaning, is_hash, is_space, is_explicit_space, is_equals, is_quote, digit_of, is_digit};

use book::{Book, Meaning};
use tokens::{Token, TokenCategory};

// What a token means.
pub(crate) fn meaning_of(book: &Book, token: Token) -> Meaning<'_>
    ensures { shown result ≡ meaning (meanings_of (book_of book.now)) token }
{
    match token {
        Token::Name(number) => book.meaning(number),
        Token::Character(category, code) => Meaning::Character(category, code),
    }
}

// Whether it means a space.
pub(crate) fn is_space(book: &Book, token: Token) -> bool
    ensures { result ≡ is_space (meanings_of (book_of book.now)) token }
{
    matches!(
        meaning_of(book, token),
        Meaning::Character(TokenCategory::Space, _)
    )
}

// Whether it means a character of category 6.
pub(crate) fn is_hash(book: &Book, token: Token) -> bool
    ensures { result ≡ is_hash (meanings_of (book_of book.now)) token }
{
    matches!(
        meaning_of(book, token),
        Meaning::Character(TokenCategory::Parameter, _)
    )
}

pub(crate) fn is_explicit_space(token: Token) -> bool
    ensures { result ≡ is_explicit_space token }
{
    matches!(token, Token::Character(TokenCategory::Space, _))
}

pub(crate) fn is_equals(token: Token) -> bool
    ensures { result ≡ is_equals token }
{
    token == Token::Character(TokenCategory::Other, b'=')
}

pub(crate) fn is_quote(token: Token) -> bool
    ensures { result ≡ is_quote token }
{
    token == Token::Character(TokenCategory::Other, b'`')
}

// The digit that an explicit character is, if it is one.
pub(crate) fn digit_of(token: Token) -> Option<u8>
    ensures { result ≡ digit_of token }
{
    match token {
        Token::Character(TokenCategory::Other, code @ b'0'..=b'9') => Some(code - b'0'),
        _ => None,
    }
}

// Whether it is the explicit digit of a number.
pub(crate) fn is_digit(digit: u8, token: Token) -> bool
    requires { digit ≤ 9 }
    ensures { result ≡ is_digit digit token }
{
    token == Token::Character(TokenCategory::Other, b'0' + digit)
}
