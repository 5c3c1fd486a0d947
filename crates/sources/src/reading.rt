ghost use Rattle.std.specs.Prelude.{◌≡◌, ℕ, ◌<◌, ◌≤◌, List, length, drop};
ghost use Rattle.lines.specs.Pieces.{shown};
ghost use Rattle.lines.specs.Line.{Item, left};
ghost use Rattle.names.specs.Spelled.{listed};
ghost use Rattle.sources.specs.Ahead.{ahead_of, piece_token, piece_names, LineReads, Onward, Unnamed, Turned};

use crate::cursor::Cursor;
use crate::fault::{LineRefusal, ReadRefusal};
use lines::{Piece, lexed};
use names::Names;
use tokens::{Category, Token};

// The token that a piece gives, if it gives one. A name is entered among the names.
fn token_of(piece: Piece<'_>, names: &mut Names) -> Result<Option<Token>, ReadRefusal>
    ensures answer { result ≡ piece_token (listed names.old) (shown piece.entry) }
    ensures names { listed names.new ≡ piece_names (listed names.old) (shown piece.entry) }
{
    match piece {
        Piece::Character(category, code) => Ok(Some(Token::Character(category, code))),
        Piece::Active(code) => Ok(Some(Token::Name(u16::from(code)))),
        Piece::Name(part) => Ok(Some(Token::Name(names.enter(part)?))),
        Piece::Nothing => Ok(None),
        Piece::Refused => Err(ReadRefusal::Line(LineRefusal::Invalid)),
    }
}

// The next piece of a line, as a token if it gives one.
fn piece_in(
    line: &[u8],
    cursor: &mut Cursor,
    categories: &[Category; 256],
    names: &mut Names,
) -> Result<Option<Token>, ReadRefusal>
    requires { cursor.old.taken < length line.now }
    ensures turned { (is : List Item) → Turned categories.now (ahead_of categories.now (listed names.old) (left cursor.old.state (drop cursor.old.taken line.now) is)) result (listed names.new) (left cursor.new.state (drop cursor.new.taken line.now) is) }
    ensures unnamed { Unnamed result (listed names.old) (listed names.new) }
    ensures onward { cursor.old.taken < cursor.new.taken }
    ensures within { cursor.new.taken ≤ length line.now }
{
    let (piece, count) = lexed(&line[cursor.taken..], cursor.state, categories);
    cursor.taken += count;
    cursor.state = piece.state_after(cursor.state, categories);
    token_of(piece, names)
}

// The next token of a line, or nothing where the line gives none any more.
pub(crate) fn token_in(
    line: &[u8],
    cursor: &mut Cursor,
    categories: &[Category; 256],
    names: &mut Names,
) -> Result<Option<Token>, ReadRefusal>
    requires { cursor.old.taken ≤ length line.now }
    ensures reads { (is : List Item) → LineReads categories.now (ahead_of categories.now (listed names.old) (left cursor.old.state (drop cursor.old.taken line.now) is)) result (listed names.new) (left cursor.new.state (drop cursor.new.taken line.now) is) is }
    ensures unnamed { Unnamed result (listed names.old) (listed names.new) }
    ensures onward { Onward result cursor.old.taken cursor.new.taken (length line.now) }
    ensures within { cursor.new.taken ≤ length line.now }
{
    // a piece takes any number of bytes, so the cursor is no counter
    'pieces: while cursor.taken < line.len() {
        if let Some(token) = piece_in(line, cursor, categories, names)? {
            return Ok(Some(token));
        }
    }
    Ok(None)
}
