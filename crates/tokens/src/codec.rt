ghost use Rattle.std.specs.Prelude.{◌≡◌, ◌^◌, ◌<◌, Some};
ghost use Rattle.tokens.specs.Words.{word_of, token_of, token_by_kind, ReadsToken};

use crate::fields::{kind_of, low_of, word_of};
use crate::token::Token;
use crate::token_category::TokenCategory;
use crate::unknown::Unknown;

// The token's word, which gives back the token.
impl From<Token> for u32 {
    ghost from_gives = { λ t w. (w ≡ word_of t) × (token_of w ≡ Some t) };

    fn from(token: Token) -> u32 {
        match token {
            Token::Name(number) => u32::from(number),
            Token::Character(category, code) => word_of(u32::from(category), u32::from(code)),
        }
    }
}

// The one token that has this word; none where the kind is no token's or an unused bit is set.
impl TryFrom<u32> for Token {
    type Error = Unknown;

    ghost try_from_gives = { ReadsToken };

    fn try_from(word: u32) -> Result<Token, Unknown> {
        Token::from_fields(kind_of(word), low_of(word)).ok_or(Unknown(word))
    }
}

impl Token {
    pub(crate) fn from_fields(kind: u32, low: u32) -> Option<Token>
        ensures { result ≡ token_by_kind kind low }
    {
        if kind == 0 {
            return Some(Token::Name(u16::try_from(low).ok()?));
        }
        let code = u8::try_from(low).ok()?;
        let category = TokenCategory::try_from(kind).ok()?;
        Some(Token::Character(category, code))
    }
}
