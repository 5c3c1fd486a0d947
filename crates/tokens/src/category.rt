ghost use Rattle.std.specs.Prelude.{◌≡◌};
ghost use Rattle.std.specs.Option.{ok_or};
ghost use Rattle.tokens.specs.Categories.{number_of, category_of};

use crate::unknown::Unknown;

/// What a byte of a line does when it is read: its category, with the number that the rules give it.
#[derive(Clone, Copy, Debug, PartialEq, Eq)]
pub enum Category {
    Escape = 0,
    Open = 1,
    Close = 2,
    Math = 3,
    Align = 4,
    EndLine = 5,
    Parameter = 6,
    Superscript = 7,
    Subscript = 8,
    Ignored = 9,
    Space = 10,
    Letter = 11,
    Other = 12,
    Active = 13,
    Comment = 14,
    Invalid = 15,
}

impl From<Category> for u8 {
    ghost from_gives = { λ c n. n ≡ number_of c };

    fn from(category: Category) -> u8 {
        category as u8
    }
}

// The category with a number, none above 15.
impl TryFrom<u8> for Category {
    type Error = Unknown;

    ghost try_from_gives = { λ n r. r ≡ ok_or (category_of n) (record { 0 = n }) };

    fn try_from(number: u8) -> Result<Category, Unknown> {
        match number {
            0 => Ok(Category::Escape),
            1 => Ok(Category::Open),
            2 => Ok(Category::Close),
            3 => Ok(Category::Math),
            4 => Ok(Category::Align),
            5 => Ok(Category::EndLine),
            6 => Ok(Category::Parameter),
            7 => Ok(Category::Superscript),
            8 => Ok(Category::Subscript),
            9 => Ok(Category::Ignored),
            10 => Ok(Category::Space),
            11 => Ok(Category::Letter),
            12 => Ok(Category::Other),
            13 => Ok(Category::Active),
            14 => Ok(Category::Comment),
            15 => Ok(Category::Invalid),
            _ => Err(Unknown(u32::from(number))),
        }
    }
}
