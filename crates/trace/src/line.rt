ghost use Rattle.std.specs.Prelude.{◌≡◌};
ghost use Rattle.trace.specs.Lines.{fault_line, read_line, is_end};

use sources::PileFault;
use std::fmt;
use tokens::Token;

/// A line of the trace.
#[derive(Clone, Copy, Debug, PartialEq, Eq)]
pub enum Line {
    Word(u32),
    Refused(u8, usize, usize),
    End,
    Stopped,
}

// The line for a refusal: its number and its place.
impl From<PileFault> for Line {
    ghost from_gives = { λ fault line. line ≡ fault_line fault };

    fn from(fault: PileFault) -> Line {
        let place = fault.place();
        Line::Refused(fault.number(), place.line, place.bytes)
    }
}

// The line for what a read answered.
impl From<Result<Option<Token>, PileFault>> for Line {
    ghost from_gives = { λ answer line. line ≡ read_line answer };

    fn from(answer: Result<Option<Token>, PileFault>) -> Line {
        match answer {
            Ok(Some(token)) => Line::Word(u32::from(token)),
            Ok(None) => Line::End,
            Err(fault) => Line::from(fault),
        }
    }
}

impl Line {
    pub fn is_end(self) -> bool
        ensures { result ≡ is_end self }
    {
        self == Line::End
    }
}

impl fmt::Display for Line {
    fn fmt<W: fmt::Write>(&self, f: &mut fmt::Formatter<W>) -> fmt::Result {
        match *self {
            Line::Word(word) => write!(f, "{word:08x}"),
            Line::Refused(number, line, bytes) => write!(f, "refused {number} {line} {bytes}"),
            Line::End => write!(f, "end"),
            Line::Stopped => write!(f, "stopped"),
        }
    }
}
