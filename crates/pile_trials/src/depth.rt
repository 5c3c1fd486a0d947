use crate::reading::{text, traced};
use names::Names;
use piles::{Join, PutBack};
use std::test::Fail;
use tokens::{Token, TokenCategory};

#[test]
fn three_deep(rt: HostRuntime) -> Result<(), Fail> {
    let heap = rt.alloc();
    let mut names = Names::new(heap)?;
    let mut second = PutBack::new(heap, text(heap, b"c")?)?;
    assert!(rt; second.insert(&[0xb000_0078, 256], &names).is_ok());
    let mut pile = PutBack::new(heap, Join::new(text(heap, b"ab\n")?, second))?;
    let digits = [
        Token::Character(TokenCategory::Other, b'1'),
        Token::Character(TokenCategory::Other, b'2'),
    ];
    assert!(rt; pile.put_back(&digits).is_ok());
    assert!(rt; pile.insert(&[0xc000_0030], &names).is_ok());
    assert_eq!(rt; pile.held(), 3);
    let trace = traced(heap, &mut pile, &mut names)?;
    assert_eq!(rt;
        trace.as_str(),
        "c0000030@0.0 c0000031@0.0 c0000032@0.0 b0000061@1.1 b0000062@1.2 a0000020@1.3 b0000078@0.0 00000100@0.0 b0000063@1.1 a0000020@1.2 end@1.2"
    );
    assert_eq!(rt; pile.held(), 0);
    Ok(())
}
