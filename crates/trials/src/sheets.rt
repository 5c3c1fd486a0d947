use crate::reading::traced;
use std::test::Fail;

// Sheets, each with the trace that the rules give it.
const SHEETS: [(&str, &str); 18] = [
    ("", "end"),
    ("\n", "00000101 end"),
    ("a\n", "b0000061 a0000020 end"),
    ("a", "b0000061 a0000020 end"),
    ("a  \n\n", "b0000061 a0000020 00000101 end"),
    ("   ", "00000101 end"),
    ("   \n  ", "00000101 00000101 end"),
    // letters take the blanks behind them
    ("\\ab  \\ab1%", "00000110 00000110 c0000031 end"),
    // a symbol takes none, a blank as a name does
    ("\\1 \\  2%", "00000110 a0000020 00000111 c0000032 end"),
    // across lines
    ("\\a\n b%", "00000110 b0000062 end"),
    // the escape at the end of a line
    ("x\\\ny%", "b0000078 00000110 b0000079 end"),
    ("\\par\\fi\\relax%", "00000101 0000010f 00000100 end"),
    ("\t \t~#{}%", "0000007e 60000023 1000007b 2000007d end"),
    // a refused byte is taken, and reading goes on
    (
        "\x7f%\n\x7f\x7fa%",
        "refused 11 1 1 refused 11 2 1 refused 11 2 2 b0000061 end",
    ),
    ("\\\x7f %", "00000110 a0000020 end"),
    // byte 0 is ignored
    ("a\0b%", "b0000061 b0000062 end"),
    // 32 letters and 33
    (
        "\\abcdefghijklmnopqrstuvwxyzabcdef z%",
        "00000110 b000007a end",
    ),
    (
        "\\abcdefghijklmnopqrstuvwxyzabcdefg z%",
        "refused 12 1 34 b000007a end",
    ),
];

#[test]
fn sheets(rt: HostRuntime) -> Result<(), Fail> {
    let heap = rt.alloc();
    for (sheet, trace) in SHEETS {
        assert_eq!(rt;
            traced(heap, sheet.as_bytes())?.as_str(),
            trace,
            "{}",
            sheet
        );
    }
    assert_eq!(rt;
        traced(heap, b"\x80\xff%")?.as_str(),
        "c0000080 c00000ff end"
    );
    Ok(())
}
