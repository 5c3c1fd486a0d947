use crate::groups::number;
use book::{Book, Plain};
use std::test::Fail;
use tokens::{BodyWord, Category, GroupKind, Scope};

#[test]
fn groups_250_and_251(rt: HostRuntime) -> Result<(), Fail> {
    let mut book = Book::new(rt.alloc())?;
    for _ in 0..250 {
        assert_eq!(rt; number(book.open(GroupKind::BeginGroup)), None);
    }
    assert_eq!(rt; number(book.open(GroupKind::Brace)), Some(46));
    assert_eq!(rt; book.depth(), 250);
    for _ in 0..250 {
        assert_eq!(rt; number(book.close(GroupKind::BeginGroup)), None);
    }
    assert_eq!(rt; number(book.close(GroupKind::BeginGroup)), Some(36));
    Ok(())
}

#[test]
fn records_of_names(rt: HostRuntime) -> Result<(), Fail> {
    let mut book = Book::new(rt.alloc())?;
    assert_eq!(rt; number(book.open(GroupKind::Brace)), None);
    for name in 1000..3048u16 {
        assert_eq!(rt;
            number(book.assign_meaning(name, Plain::Undefined, Scope::Local)),
            None
        );
    }
    assert_eq!(rt; book.name_records(), 2048);
    assert_eq!(rt;
        number(book.assign_meaning(3048, Plain::Undefined, Scope::Local)),
        Some(45)
    );
    assert_eq!(rt;
        number(book.assign_meaning(3047, Plain::Undefined, Scope::Local)),
        None,
        "its record is taken already"
    );
    assert_eq!(rt;
        number(book.assign_meaning(3048, Plain::Undefined, Scope::Global)),
        None
    );
    assert_eq!(rt; number(book.close(GroupKind::Brace)), None);
    assert_eq!(rt; book.name_records(), 0);
    Ok(())
}

// Eight groups, with all 256 codes assigned in each.
#[test]
fn records_of_codes(rt: HostRuntime) -> Result<(), Fail> {
    let mut book = Book::new(rt.alloc())?;
    for _ in 0..8 {
        assert_eq!(rt; number(book.open(GroupKind::Brace)), None);
        for code in 0..=255u8 {
            assert_eq!(rt;
                number(book.assign_category(code, Category::Letter, Scope::Local)),
                None
            );
        }
    }
    assert_eq!(rt; book.code_records(), 2048);
    assert_eq!(rt; number(book.open(GroupKind::Brace)), None);
    assert_eq!(rt;
        number(book.assign_category(0, Category::Other, Scope::Local)),
        Some(45)
    );
    assert_eq!(rt; u8::from(book.category(0)), 11);
    assert_eq!(rt; book.code_records(), 2048);
    Ok(())
}

#[test]
fn words_of_definitions(rt: HostRuntime) -> Result<(), Fail> {
    let mut book = Book::new(rt.alloc())?;
    let words = [BodyWord::Reference(1); 2049];
    assert_eq!(rt;
        number(book.define(300, false, &[], &words, Scope::Local)),
        Some(43)
    );
    for _ in 0..8 {
        assert_eq!(rt;
            number(book.define(300, true, &[], &words[0..2048], Scope::Local)),
            None
        );
    }
    assert_eq!(rt; book.words(), 16_384);
    assert_eq!(rt;
        number(book.define(301, false, &[], &words[0..1], Scope::Local)),
        Some(44)
    );
    assert_eq!(rt;
        number(book.define(301, false, &[], &[], Scope::Local)),
        None,
        "a definition of no words"
    );
    assert_eq!(rt; book.words(), 16_384);
    Ok(())
}
