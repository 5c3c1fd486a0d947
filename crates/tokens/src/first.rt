ghost use Rattle.std.specs.Prelude.{◌≡◌};
ghost use Rattle.tokens.specs.Firsts.{first_category, first_categories};

use crate::category::Category;
use std::array;

impl Category {
    /// The category that a code has at first.
    pub fn first(code: u8) -> Category
        ensures { result ≡ first_category code }
    {
        match code {
            b'\\' => Category::Escape,
            b'{' => Category::Open,
            b'}' => Category::Close,
            b'$' => Category::Math,
            b'&' => Category::Align,
            13 => Category::EndLine,
            b'#' => Category::Parameter,
            b'^' => Category::Superscript,
            b'_' => Category::Subscript,
            0 => Category::Ignored,
            9 | b' ' => Category::Space,
            b'A'..=b'Z' | b'a'..=b'z' => Category::Letter,
            b'~' => Category::Active,
            b'%' => Category::Comment,
            127 => Category::Invalid,
            _ => Category::Other,
        }
    }

    /// The categories of all codes at first.
    pub fn first_table() -> [Category; 256]
        ensures { result ≡ first_categories }
    {
        array::from_fn(|code| Category::first(code as u8))
    }
}
