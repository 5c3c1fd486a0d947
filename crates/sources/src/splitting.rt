ghost use Rattle.std.specs.Prelude.{◌≡◌, ◌==◌};
ghost use Rattle.std.specs.List.{position_or_len, suffix_len};

const LINE_END: u8 = 10;

const BLANK: u8 = 32;

// How many bytes stand before the first line end.
pub(crate) fn line_length(rest: &[u8]) -> usize
    ensures { result ≡ position_or_len (λ b. b == 10) rest.now }
{
    rest.iter().take_while(|byte| **byte != LINE_END).count()
}

// How many blanks stand at the end of a line.
pub(crate) fn blank_count(line: &[u8]) -> usize
    ensures { result ≡ suffix_len (λ b. b == 32) line.now }
{
    line.iter().rev().take_while(|byte| **byte == BLANK).count()
}
