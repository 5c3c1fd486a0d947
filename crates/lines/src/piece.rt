ghost use Rattle.std.specs.Prelude.{◌≡◌};
ghost use Rattle.lines.specs.Pieces.{shown};
ghost use Rattle.lines.specs.Line.{behind_byte, behind_name, state_after};

use tokens::{Category, TokenCategory};

/// Where a line stands: nothing taken yet but blanks, in the middle, or after a blank or a name.
#[derive(Clone, Copy, Debug, PartialEq, Eq)]
pub enum LineState {
    NewLine,
    MidLine,
    SkipBlanks,
}

/// What the next bytes of a line give. A name is the part of the line that spells it.
#[derive(Clone, Copy, Debug, PartialEq, Eq)]
pub enum Piece<'a> {
    Character(TokenCategory, u8),
    Active(u8),
    Name(&'a [u8]),
    Nothing,
    Refused,
}

// The state behind a name of one byte.
fn behind_byte(category: Category) -> LineState
    ensures { result ≡ behind_byte category }
{
    match category {
        Category::Letter | Category::Space => LineState::SkipBlanks,
        _ => LineState::MidLine,
    }
}

// The state behind a name: blanks are skipped behind letters.
fn behind_name(part: &[u8], state: LineState, categories: &[Category; 256]) -> LineState
    ensures { result ≡ behind_name categories.now state part.now }
{
    match part {
        [] => state,
        [byte] => behind_byte(categories[*byte as usize]),
        _ => LineState::SkipBlanks,
    }
}

impl Piece<'_> {
    /// The state of the line behind this piece.
    pub fn state_after(self, state: LineState, categories: &[Category; 256]) -> LineState
        ensures { result ≡ state_after categories.now state (shown self.entry) }
    {
        match self {
            Piece::Character(TokenCategory::Space, _) => LineState::SkipBlanks,
            Piece::Character(_, _) | Piece::Active(_) => LineState::MidLine,
            Piece::Name(part) => behind_name(part, state, categories),
            Piece::Nothing | Piece::Refused => state,
        }
    }
}
