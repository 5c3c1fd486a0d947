use book::{Book, BookFault, Meaning, Plain};
use std::test::Fail;
use tokens::{BodyWord, Category, GroupKind, Scope, Token, TokenCategory};

const NAME: u16 = 272;

// The number that a refusal has, if there is one.
pub(crate) fn number(answer: Result<(), BookFault>) -> Option<u8> {
    answer.err().map(u8::from)
}

// The code of the one character that a macro's body has.
fn body(meaning: Meaning<'_>) -> Option<u8> {
    match meaning {
        Meaning::Macro(definition) => match definition.body {
            [BodyWord::Token(Token::Character(TokenCategory::Other, code))] => Some(*code),
            _ => None,
        },
        Meaning::Undefined | Meaning::Primitive(_) | Meaning::Character(_, _) => None,
    }
}

fn define(book: &mut Book, code: u8, scope: Scope) -> Option<u8> {
    let words = [BodyWord::Token(Token::Character(TokenCategory::Other, code))];
    number(book.define(NAME, false, &[], &words, scope))
}

// { \def\a{1} \gdef\a{2} \def\a{3} } as operations: 3 inside, 2 behind.
#[test]
fn global_between_locals(rt: HostRuntime) -> Result<(), Fail> {
    let mut book = Book::new(rt.alloc())?;
    assert_eq!(rt; number(book.open(GroupKind::Brace)), None);
    assert_eq!(rt; define(&mut book, b'1', Scope::Local), None);
    assert_eq!(rt; define(&mut book, b'2', Scope::Global), None);
    assert_eq!(rt; define(&mut book, b'3', Scope::Local), None);
    assert_eq!(rt; body(book.meaning(NAME)), Some(b'3'));
    assert_eq!(rt; number(book.close(GroupKind::Brace)), None);
    assert_eq!(rt; body(book.meaning(NAME)), Some(b'2'));
    assert_eq!(rt; book.name_records(), 0);
    assert_eq!(rt; book.words(), 3);
    Ok(())
}

#[test]
fn what_is_local_ends(rt: HostRuntime) -> Result<(), Fail> {
    let mut book = Book::new(rt.alloc())?;
    assert_eq!(rt; number(book.close(GroupKind::Brace)), Some(36), "none open");
    assert_eq!(rt; number(book.open(GroupKind::Host)), None);
    assert_eq!(rt;
        number(book.assign_category(37, Category::Other, Scope::Local)),
        None
    );
    assert_eq!(rt;
        number(book.assign_meaning(257, Plain::Undefined, Scope::Local)),
        None
    );
    assert_eq!(rt;
        number(book.close(GroupKind::Brace)),
        Some(36),
        "of another kind"
    );
    assert_eq!(rt; u8::from(book.category(37)), 12);
    assert_eq!(rt; number(book.close(GroupKind::Host)), None);
    assert_eq!(rt; u8::from(book.category(37)), 14);
    assert_eq!(rt; book.depth(), 0);
    match book.meaning(257) {
        Meaning::Primitive(primitive) => {
            assert_eq!(rt; u16::from(primitive), 257);
            Ok(())
        },
        _ => Err(Fail::new("the primitive is lost")),
    }
}
