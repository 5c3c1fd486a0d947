ghost use Rattle.std.specs.Prelude.{◌≡◌};
ghost use Rattle.std.specs.Option.{ok_or};
ghost use Rattle.tokens.specs.Categories.{token_number_of, token_category_of};

use crate::unknown::Unknown;

/// The ten categories that a character token can have.
#[derive(Clone, Copy, Debug, PartialEq, Eq)]
pub enum TokenCategory {
    Open = 1,
    Close = 2,
    Math = 3,
    Align = 4,
    Parameter = 6,
    Superscript = 7,
    Subscript = 8,
    Space = 10,
    Letter = 11,
    Other = 12,
}

impl From<TokenCategory> for u32 {
    ghost from_gives = { λ c n. n ≡ token_number_of c };

    fn from(category: TokenCategory) -> u32 {
        category as u32
    }
}

impl From<TokenCategory> for u8 {
    ghost from_gives = { λ c n. n ≡ token_number_of c };

    fn from(category: TokenCategory) -> u8 {
        category as u8
    }
}

impl TryFrom<u32> for TokenCategory {
    type Error = Unknown;

    ghost try_from_gives = { λ n r. r ≡ ok_or (token_category_of n) (record { 0 = n }) };

    fn try_from(number: u32) -> Result<TokenCategory, Unknown> {
        match number {
            1 => Ok(TokenCategory::Open),
            2 => Ok(TokenCategory::Close),
            3 => Ok(TokenCategory::Math),
            4 => Ok(TokenCategory::Align),
            6 => Ok(TokenCategory::Parameter),
            7 => Ok(TokenCategory::Superscript),
            8 => Ok(TokenCategory::Subscript),
            10 => Ok(TokenCategory::Space),
            11 => Ok(TokenCategory::Letter),
            12 => Ok(TokenCategory::Other),
            _ => Err(Unknown(number)),
        }
    }
}
