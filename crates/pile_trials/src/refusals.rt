use crate::reading::text;
use names::Names;
use piles::PutBack;
use sources::{Source, Text};
use std::test::Fail;
use tokens::Category;

// The number of the refusal of some words, if they are refused.
fn inserted(pile: &mut PutBack<Text>, words: &[u32], names: &Names) -> Option<u8> {
    let fault = pile.insert(words, names).err()?;
    Some(fault.number())
}

#[test]
fn as_many_as_fit(rt: HostRuntime) -> Result<(), Fail> {
    let heap = rt.alloc();
    let names = Names::new(heap)?;
    let mut pile = PutBack::new(heap, text(heap, b"a")?)?;
    let mut words = vec![in heap; 0xb000_0061u32; 4_096]?;
    words.push(0x5000_0061)?;
    assert_eq!(rt;
        inserted(&mut pile, words.as_slice(), &names),
        Some(38),
        "the last word is bad"
    );
    let _ = words.pop();
    words.push(0)?;
    assert_eq!(rt;
        inserted(&mut pile, words.as_slice(), &names),
        Some(40),
        "4,097 words"
    );
    assert_eq!(rt; pile.held(), 0);
    let _ = words.pop();
    assert_eq!(rt;
        inserted(&mut pile, words.as_slice(), &names),
        None,
        "4,096 words"
    );
    assert_eq!(rt; inserted(&mut pile, &[0], &names), Some(40));
    assert_eq!(rt; inserted(&mut pile, &[], &names), None);
    assert_eq!(rt; pile.held(), 4_096);
    Ok(())
}

#[test]
fn words_of_no_token(rt: HostRuntime) -> Result<(), Fail> {
    let heap = rt.alloc();
    let names = Names::new(heap)?;
    let mut pile = PutBack::new(heap, text(heap, b"a")?)?;
    let taken = u32::from(names.taken());
    for word in [
        taken,
        0x0001_0000,
        0xb000_0161,
        0x5000_0061,
        0x9000_0061,
        0xd000_0000,
    ] {
        assert_eq!(rt; inserted(&mut pile, &[0xb000_0061, word], &names), Some(38));
        assert_eq!(rt; pile.held(), 0);
    }
    assert_eq!(rt;
        inserted(&mut pile, &[0, 255, 256, taken - 1], &names),
        None
    );
    assert_eq!(rt; pile.held(), 4);
    Ok(())
}

#[test]
fn the_place_of_a_refusal(rt: HostRuntime) -> Result<(), Fail> {
    let heap = rt.alloc();
    let mut names = Names::new(heap)?;
    let mut pile = PutBack::new(heap, text(heap, b"a")?)?;
    assert!(rt; pile.read(&Category::first_table(), &mut names).is_ok());
    match pile.insert(&[0x5000_0000], &names) {
        Ok(()) => Err(Fail::new("a word of kind 5 was put")),
        Err(fault) => {
            assert_eq!(rt; fault.place().line, 1);
            assert_eq!(rt; fault.place().bytes, 1);
            Ok(())
        }
    }
}
