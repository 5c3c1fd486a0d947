use crate::reading::{text, traced};
use names::Names;
use piles::Join;
use std::alloc::Global;
use std::test::Fail;

fn joined(heap: Global, first: &[u8], second: &[u8], names: &mut Names) -> Result<String, Fail> {
    let mut join = Join::new(text(heap, first)?, text(heap, second)?);
    traced(heap, &mut join, names)
}

#[test]
fn an_empty_side(rt: HostRuntime) -> Result<(), Fail> {
    let heap = rt.alloc();
    let mut names = Names::new(heap)?;
    assert_eq!(rt;
        joined(heap, b"", b"a", &mut names)?.as_str(),
        "b0000061@1.1 a0000020@1.2 end@1.2"
    );
    assert_eq!(rt;
        joined(heap, b"a", b"", &mut names)?.as_str(),
        "b0000061@1.1 a0000020@1.2 end@0.0"
    );
    assert_eq!(rt; joined(heap, b"", b"", &mut names)?.as_str(), "end@0.0");
    Ok(())
}

#[test]
fn a_refused_byte(rt: HostRuntime) -> Result<(), Fail> {
    let heap = rt.alloc();
    let mut names = Names::new(heap)?;
    assert_eq!(rt;
        joined(heap, b"a\x7fb", b"c", &mut names)?.as_str(),
        "b0000061@1.1 refused 11@1.2 b0000062@1.3 a0000020@1.4 b0000063@1.1 a0000020@1.2 end@1.2"
    );
    Ok(())
}

#[test]
fn a_name_ends_at_the_seam(rt: HostRuntime) -> Result<(), Fail> {
    let heap = rt.alloc();
    let mut names = Names::new(heap)?;
    assert_eq!(rt;
        joined(heap, b"\\ab", b"cd", &mut names)?.as_str(),
        "00000110@1.3 b0000063@1.1 b0000064@1.2 a0000020@1.3 end@1.3"
    );
    assert_eq!(rt; names.number(b"ab"), Some(272));
    assert_eq!(rt; names.number(b"abcd"), None);
    Ok(())
}
