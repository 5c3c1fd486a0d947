use crate::reading::traced;
use lines::{LineState, Piece, lexed};
use names::Names;
use std::test::Fail;
use tokens::{Category, TokenCategory};

#[test]
fn the_last_number(rt: HostRuntime) -> Result<(), Fail> {
    let mut names = Names::new(rt.alloc())?;
    for i in 0..752u16 {
        let [high, low] = i.to_be_bytes();
        assert_eq!(rt; names.enter(&[high, low]), Ok(272 + i));
    }
    assert_eq!(rt; names.taken(), 1024);
    assert_eq!(rt; names.enter(b"one more").map_err(u8::from), Err(13));
    assert_eq!(rt; names.taken(), 1024);
    assert_eq!(rt; names.number(b"one more"), None);
    assert_eq!(rt; names.number(b"fi"), Some(271));
    assert_eq!(rt; names.number(&[0, 0]), Some(272));
    Ok(())
}

#[test]
fn the_longest_text(rt: HostRuntime) -> Result<(), Fail> {
    let heap = rt.alloc();
    let mut bytes = vec![in heap; 37u8; 65_536]?;
    assert_eq!(rt;
        traced(heap, bytes.as_slice())?.as_str(),
        "end",
        "65,536 bytes"
    );
    bytes.push(37)?;
    assert_eq!(rt;
        traced(heap, bytes.as_slice())?.as_str(),
        "refused 49 0 0",
        "65,537 bytes"
    );
    Ok(())
}

// A piece, without what it holds.
#[derive(Clone, Copy, Debug, PartialEq, Eq)]
enum Kind {
    Space,
    Character,
    Active,
    Name,
    Nothing,
    Refused,
}

// The kind of piece that a byte gives before a letter, told by the byte alone.
fn expected(byte: u8, state: LineState) -> (Kind, usize) {
    match (byte, state) {
        (92, _) => (Kind::Name, 2),
        (13, LineState::NewLine) => (Kind::Name, 3),
        (13, LineState::MidLine) => (Kind::Space, 3),
        (13, LineState::SkipBlanks) | (37, _) => (Kind::Nothing, 3),
        (9 | 32, LineState::MidLine) => (Kind::Space, 1),
        (9 | 32, _) | (0, _) => (Kind::Nothing, 1),
        (127, _) => (Kind::Refused, 1),
        (126, _) => (Kind::Active, 1),
        _ => (Kind::Character, 1),
    }
}

fn kind_of(piece: Piece<'_>) -> Kind {
    match piece {
        Piece::Character(TokenCategory::Space, 32) => Kind::Space,
        Piece::Character(_, _) => Kind::Character,
        Piece::Active(_) => Kind::Active,
        Piece::Name(_) => Kind::Name,
        Piece::Nothing => Kind::Nothing,
        Piece::Refused => Kind::Refused,
    }
}

#[test]
fn every_byte_in_every_state(rt: HostRuntime) {
    let categories = Category::first_table();
    // the byte is what is tried
    for byte in 0..=255u8 {
        for state in [
            LineState::NewLine,
            LineState::MidLine,
            LineState::SkipBlanks,
        ] {
            let line = [byte, b'a', 13];
            let (piece, count) = lexed(&line, state, &categories);
            let (said, taken) = expected(byte, state);
            assert_eq!(rt; count, taken);
            assert_eq!(rt; kind_of(piece), said);
        }
    }
}
