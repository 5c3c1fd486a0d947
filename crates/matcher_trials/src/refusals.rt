use crate::trying::tried_text;
use matcher::{NoText, ParameterText};
use std::test::Fail;
use tokens::ParameterWord;

#[test]
fn each_with_its_place(rt: HostRuntime) -> Result<(), Fail> {
    let heap = rt.alloc();
    assert_eq!(rt;
        tried_text(heap, b"ayb", false, b"ab#")?.as_str(),
        "22@1.2 matching"
    );
    assert_eq!(rt;
        tried_text(heap, b"a}x", false, b"#x")?.as_str(),
        "23@1.2 matching"
    );
    assert_eq!(rt;
        tried_text(heap, b"}", true, b"#")?.as_str(),
        "23@1.1 matching"
    );
    assert_eq!(rt;
        tried_text(heap, b"a\\par x", false, b"#x")?.as_str(),
        "24@1.5 matching"
    );
    assert_eq!(rt;
        tried_text(heap, b"\\par", false, b"#")?.as_str(),
        "24@1.4 matching"
    );
    assert_eq!(rt;
        tried_text(heap, b"\\par x", true, b"#x")?.as_str(),
        "[<257>]"
    );
    Ok(())
}

#[test]
fn a_name_in_a_delimiter(rt: HostRuntime) -> Result<(), Fail> {
    let heap = rt.alloc();
    assert_eq!(rt;
        tried_text(heap, b"a\\par x", false, b"#$x")?.as_str(),
        "[61]"
    );
    assert_eq!(rt;
        tried_text(heap, b"a\\par ax", false, b"#$x")?.as_str(),
        "24@1.7 matching"
    );
    assert_eq!(rt;
        tried_text(heap, b"\\par}x", false, b"#$x")?.as_str(),
        "23@1.5 matching",
        "23 before 24"
    );
    Ok(())
}

#[test]
fn the_end(rt: HostRuntime) -> Result<(), Fail> {
    let heap = rt.alloc();
    assert_eq!(rt;
        tried_text(heap, b"ab", false, b"#x")?.as_str(),
        "25@1.3 matching"
    );
    assert_eq!(rt;
        tried_text(heap, b"", false, b"#")?.as_str(),
        "25@0.0 matching"
    );
    assert_eq!(rt;
        tried_text(heap, b"{a", true, b"#")?.as_str(),
        "25@1.3 matching"
    );
    assert_eq!(rt;
        tried_text(heap, b"a\x7f", true, b"#x")?.as_str(),
        "11@1.2 matching"
    );
    Ok(())
}

#[test]
fn ten_parameters(rt: HostRuntime) -> Result<(), Fail> {
    let ten = [ParameterWord::Parameter; 10];
    assert_eq!(rt; ParameterText::try_from(&ten[..]), Err(NoText));
    assert!(rt; ParameterText::try_from(&ten[1..]).is_ok());
    Ok(())
}
