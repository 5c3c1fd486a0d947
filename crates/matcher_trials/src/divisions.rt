use crate::trying::tried_text;
use std::test::Fail;

#[test]
fn parts_of_a_delimiter(rt: HostRuntime) -> Result<(), Fail> {
    let heap = rt.alloc();
    assert_eq!(rt; tried_text(heap, b"aaab", false, b"#aab")?.as_str(), "[61]");
    assert_eq!(rt;
        tried_text(heap, b"xaaabx", false, b"#aab")?.as_str(),
        "[7861]"
    );
    assert_eq!(rt; tried_text(heap, b"aabaab", false, b"#aab")?.as_str(), "[]");
    Ok(())
}

#[test]
fn braces(rt: HostRuntime) -> Result<(), Fail> {
    let heap = rt.alloc();
    assert_eq!(rt;
        tried_text(heap, b"a{{x}x}bx", false, b"#x")?.as_str(),
        "[617b7b787d787d62]"
    );
    assert_eq!(rt;
        tried_text(heap, b"{a}x", false, b"#x")?.as_str(),
        "[61]",
        "one group"
    );
    assert_eq!(rt;
        tried_text(heap, b"{a}{b}x", false, b"#x")?.as_str(),
        "[7b617d7b627d]",
        "two groups"
    );
    assert_eq!(rt;
        tried_text(heap, b"{{a}}", false, b"#")?.as_str(),
        "[7b617d]"
    );
    Ok(())
}

#[test]
fn empty_ones(rt: HostRuntime) -> Result<(), Fail> {
    let heap = rt.alloc();
    assert_eq!(rt; tried_text(heap, b"xy", false, b"#x#y")?.as_str(), "[][]");
    assert_eq!(rt; tried_text(heap, b"{}{}", false, b"##")?.as_str(), "[][]");
    assert_eq!(rt; tried_text(heap, b"{}x", false, b"#x")?.as_str(), "[]");
    assert_eq!(rt; tried_text(heap, b"a", false, b"")?.as_str(), "");
    Ok(())
}

#[test]
fn nine(rt: HostRuntime) -> Result<(), Fail> {
    let heap = rt.alloc();
    assert_eq!(rt;
        tried_text(heap, b"abcdefghi", false, b"#########")?.as_str(),
        "[61][62][63][64][65][66][67][68][69]"
    );
    assert_eq!(rt;
        tried_text(heap, b"p  a b{c}, d.", false, b"p##,#.")?.as_str(),
        "[61][20627b637d][2064]"
    );
    Ok(())
}

#[test]
fn blanks(rt: HostRuntime) -> Result<(), Fail> {
    let heap = rt.alloc();
    assert_eq!(rt;
        tried_text(heap, b"ab c dx", false, b"##x")?.as_str(),
        "[61][6220632064]"
    );
    Ok(())
}
