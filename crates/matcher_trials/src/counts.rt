use crate::trying::{text, tried};
use driving::Scan;
use matcher::{Arguments, ParameterText, matched};
use names::Names;
use piles::PutBack;
use sources::Text;
use std::alloc::Global;
use std::test::Fail;
use tokens::{Category, ParameterWord, Token, TokenCategory};

// A text with so many letters in front.
fn letters(heap: Global, count: usize, bytes: &[u8]) -> Result<PutBack<Text>, Fail> {
    let mut pile = PutBack::new(heap, text(heap, bytes)?)?;
    let tokens = vec![in heap; Token::Character(TokenCategory::Letter, b'a'); count]?;
    pile.put_back(tokens.as_slice())?;
    Ok(pile)
}

// How many tokens the one argument has that is read up to an x, if there is one.
fn counted(heap: Global, source: &mut PutBack<Text>) -> Result<Option<usize>, Fail> {
    let mut names = Names::new(heap)?;
    let mut arguments = Arguments::new(heap)?;
    let mut scan = Scan::new();
    let words = [
        ParameterWord::Parameter,
        ParameterWord::Token(Token::Character(TokenCategory::Letter, b'x')),
    ];
    let answer = matched(
        source,
        &Category::first_table(),
        &mut names,
        &mut scan,
        false,
        ParameterText::of(&words),
        &mut arguments,
    );
    if answer.is_err() {
        return Ok(None);
    }
    Ok(arguments.get(0).map(|tokens| tokens.len()))
}

#[test]
fn as_many_as_may_be(rt: HostRuntime) -> Result<(), Fail> {
    let heap = rt.alloc();
    let mut most = letters(heap, 4_096, b"x")?;
    assert_eq!(rt; counted(heap, &mut most)?, Some(4_096));
    let mut over = letters(heap, 4_096, b"ax")?;
    assert_eq!(rt;
        tried(heap, &mut over, false, b"#x")?.as_str(),
        "42@1.1 matching",
        "4,097"
    );
    let mut behind = letters(heap, 4_096, b"x")?;
    assert_eq!(rt;
        tried(heap, &mut behind, false, b"#x#")?.as_str(),
        "42@0.0 matching",
        "one is left for the second"
    );
    Ok(())
}

#[test]
fn a_group(rt: HostRuntime) -> Result<(), Fail> {
    let heap = rt.alloc();
    let open = [Token::Character(TokenCategory::Open, b'{')];
    let mut most = letters(heap, 4_094, b"}x")?;
    assert!(rt; most.put_back(&open).is_ok());
    assert_eq!(rt;
        counted(heap, &mut most)?,
        Some(4_094),
        "its braces count, and are stripped"
    );
    let mut over = letters(heap, 4_095, b"}x")?;
    assert!(rt; over.put_back(&open).is_ok());
    assert_eq!(rt;
        tried(heap, &mut over, false, b"#")?.as_str(),
        "42@0.0 matching"
    );
    Ok(())
}
