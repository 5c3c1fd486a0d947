use crate::trying::text;
use driving::Scan;
use expanding::{Expansion, TooLong, expansion_length};
use matcher::{Arguments, ParameterText, matched};
use names::Names;
use std::alloc::Global;
use std::test::Fail;
use tokens::{BodyWord, Category, ParameterWord, Token, TokenCategory};

// The two arguments ab and none.
fn two(heap: Global) -> Result<Arguments, Fail> {
    let mut names = Names::new(heap)?;
    let mut arguments = Arguments::new(heap)?;
    let mut scan = Scan::new();
    let mut source = text(heap, b"{ab}{}")?;
    let words = [ParameterWord::Parameter, ParameterWord::Parameter];
    let _ = matched(
        &mut source,
        &Category::first_table(),
        &mut names,
        &mut scan,
        false,
        ParameterText::of(&words),
        &mut arguments,
    );
    Ok(arguments)
}

#[test]
fn references(rt: HostRuntime) -> Result<(), Fail> {
    let heap = rt.alloc();
    let arguments = two(heap)?;
    assert_eq!(rt; arguments.len(), 2);
    let mut expansion = Expansion::new(heap)?;
    let comma = Token::Character(TokenCategory::Other, b',');
    let body = [
        BodyWord::Reference(1),
        BodyWord::Token(comma),
        BodyWord::Reference(2),
        BodyWord::Reference(3),
        BodyWord::Reference(0),
        BodyWord::Reference(1),
    ];
    assert_eq!(rt; expansion_length(&arguments, &body), Some(5));
    assert_eq!(rt; expansion.substitute(&arguments, &body), Ok(()));
    assert_eq!(rt; expansion.tokens().len(), 5);
    Ok(())
}

#[test]
fn too_long(rt: HostRuntime) -> Result<(), Fail> {
    let heap = rt.alloc();
    let arguments = two(heap)?;
    let mut expansion = Expansion::new(heap)?;
    let mut body = vec![in heap; BodyWord::Reference(1); 2_048]?;
    assert_eq!(rt; expansion_length(&arguments, body.as_slice()), Some(4_096));
    assert_eq!(rt; expansion.substitute(&arguments, body.as_slice()), Ok(()));
    assert_eq!(rt; expansion.tokens().len(), 4_096);
    body.push(BodyWord::Reference(1))?;
    assert_eq!(rt; expansion_length(&arguments, body.as_slice()), None);
    assert_eq!(rt;
        expansion.substitute(&arguments, body.as_slice()),
        Err(TooLong)
    );
    assert_eq!(rt; expansion.tokens().len(), 0);
    Ok(())
}
