ghost use Rattle.std.specs.Prelude.{◌≡◌, ◌+◌, ◌-◌, ◌^◌, ◌<◌, length};
ghost use Rattle.std.specs.List.{prefix_len};
ghost use Rattle.lines.specs.Pieces.{shown};
ghost use Rattle.lines.specs.Line.{category, is_letter, escaped, piece_by, more_by, piece_of, taken_of};

use crate::piece::{LineState, Piece};
use tokens::{Category, TokenCategory};

const BLANK: u8 = 32;

// How many letters stand at the front.
fn letter_count(line: &[u8], categories: &[Category; 256]) -> usize
    ensures { result ≡ prefix_len (λ b. is_letter (category categories.now b)) line.now }
{
    line.iter()
        .take_while(|byte| categories[**byte as usize] == Category::Letter)
        .count()
}

// The part behind an escape that spells its name: a run of letters, else one byte, else none.
#[tactic(auto, using(crate::proofs::Letters::count_within, crate::proofs::Letters::count_escaped))]
fn name_part<'a>(rest: &'a [u8], categories: &[Category; 256]) -> &'a [u8]
    ensures { result.now ≡ escaped categories.now rest.now }
{
    if rest.is_empty() {
        return rest;
    }
    let count = letter_count(rest, categories);
    if count == 0 {
        &rest[..1]
    } else {
        &rest[..count]
    }
}

// What a byte gives, by the line's state and the byte's category together, with the bytes behind it. One match on both, as
// the rules have it; so each category of a token stands by itself.
fn piece_by<'a>(
    byte: u8,
    category: Category,
    rest: &'a [u8],
    state: LineState,
    categories: &[Category; 256],
) -> (Piece<'a>, usize)
    requires { length rest.now < 2 ^ 64 - 1 }
    ensures piece { shown result.0 ≡ piece_by categories.now state byte rest.now category }
    ensures taken { result.1 ≡ 1 + more_by categories.now rest.now category }
{
    match (state, category) {
        (_, Category::Escape) => {
            let part = name_part(rest, categories);
            (Piece::Name(part), 1 + part.len())
        }
        (LineState::NewLine, Category::EndLine) => (Piece::Name(b"par"), 1 + rest.len()),
        (LineState::MidLine, Category::EndLine) => (
            Piece::Character(TokenCategory::Space, BLANK),
            1 + rest.len(),
        ),
        (LineState::SkipBlanks, Category::EndLine) | (_, Category::Comment) => (
            Piece::Nothing,
            1 + rest.len(),
        ),
        (LineState::MidLine, Category::Space) => (Piece::Character(TokenCategory::Space, BLANK), 1),
        (_, Category::Space) | (_, Category::Ignored) => (Piece::Nothing, 1),
        (_, Category::Invalid) => (Piece::Refused, 1),
        (_, Category::Active) => (Piece::Active(byte), 1),
        (_, Category::Open) => (Piece::Character(TokenCategory::Open, byte), 1),
        (_, Category::Close) => (Piece::Character(TokenCategory::Close, byte), 1),
        (_, Category::Math) => (Piece::Character(TokenCategory::Math, byte), 1),
        (_, Category::Align) => (Piece::Character(TokenCategory::Align, byte), 1),
        (_, Category::Parameter) => (Piece::Character(TokenCategory::Parameter, byte), 1),
        (_, Category::Superscript) => (Piece::Character(TokenCategory::Superscript, byte), 1),
        (_, Category::Subscript) => (Piece::Character(TokenCategory::Subscript, byte), 1),
        (_, Category::Letter) => (Piece::Character(TokenCategory::Letter, byte), 1),
        (_, Category::Other) => (Piece::Character(TokenCategory::Other, byte), 1),
    }
}

/// The next piece of a line, with the number of bytes it takes.
pub fn lexed<'a>(
    line: &'a [u8],
    state: LineState,
    categories: &[Category; 256],
) -> (Piece<'a>, usize)
    ensures piece { shown result.0 ≡ piece_of categories.now state line.now }
    ensures taken { result.1 ≡ taken_of categories.now state line.now }
{
    match line {
        [] => (Piece::Nothing, 0),
        [byte, rest @ ..] => piece_by(*byte, categories[*byte as usize], rest, state, categories),
    }
}
