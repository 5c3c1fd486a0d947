// Tests of tokens. Each is one line, and has the name that the rules have for it.
ghost use Rattle.std.specs.Prelude.{◌≡◌};
ghost use Rattle.matching.specs.Braces.{is_open, is_close, is_blank};

use tokens::{Token, TokenCategory};

/// Whether it is an opening brace.
pub fn is_open(token: Token) -> bool
    ensures { result ≡ is_open token }
{
    matches!(token, Token::Character(TokenCategory::Open, _))
}

/// Whether it is a closing brace.
pub fn is_close(token: Token) -> bool
    ensures { result ≡ is_close token }
{
    matches!(token, Token::Character(TokenCategory::Close, _))
}

/// Whether it is a space as a line gives it.
pub fn is_blank(token: Token) -> bool
    ensures { result ≡ is_blank token }
{
    token == Token::Character(TokenCategory::Space, b' ')
}
