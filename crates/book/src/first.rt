ghost use Rattle.std.specs.Prelude.{◌≡◌, IfOk, map};
ghost use Rattle.std.specs.List.{range_with_len};
ghost use Rattle.book.specs.Primitives.{primitive_of};
ghost use Rattle.tokens.specs.Firsts.{first_categories};
ghost use Rattle.book.specs.Firsts.{plain_first};

use crate::meaning::{Held, Plain, Primitive};
use std::alloc::{AllocError, Global};
use tokens::Category;

// The numbers that a name can have.
const NAMES: usize = 65536;

// What a name means at first.
fn first_meaning(name: u16) -> Held
    ensures { result ≡ Held.Plain (plain_first (primitive_of name)) }
{
    Held::Plain(Primitive::try_from(name).map_or(Plain::Undefined, Plain::Primitive))
}

// What all names mean at first.
pub(crate) fn first_meanings(heap: Global) -> Result<Vec<Held>, AllocError>
    ensures { IfOk result (λ v. v.items ≡ map (λ k. Held.Plain (plain_first (primitive_of k))) (range_with_len 0 65536)) }
{
    // `0..=u16::MAX` was tried: its proof does not close, as the library's lemmas are on ranges without their end.
    (0..NAMES)
        .map(|name| first_meaning(name as u16))
        .collect(heap)
}

// The categories of all codes at first.
pub(crate) fn first_categories(heap: Global) -> Result<Vec<Category>, AllocError>
    ensures { IfOk result (λ v. v.items ≡ first_categories) }
{
    Category::first_table().to_vec(heap)
}
