ghost use Rattle.std.specs.Prelude.{◌≡◌, ◌+◌, ◌≤◌, vec_len, vec_capacity};
ghost use Rattle.sources.specs.Texts.{Begun};
ghost use Rattle.sources.specs.declared.text.MakeFault.TheVariants.{NoMemory, Refused};

use crate::cursor::Cursor;
use crate::fault::PileFault;
use std::alloc::AllocError;

/// A text as a source: its bytes, and the line that is being read, as it is made of them.
#[derive(Drop)]
pub struct Text {
    pub(crate) bytes: Vec<u8>,
    // where the next line begins
    pub(crate) next: usize,
    // as it is made it stands nowhere in the bytes; its memory is taken when the text is made
    pub(crate) line: Vec<u8>,
    // the line's number, from 1; 0 before the first
    pub(crate) number: usize,
    pub(crate) cursor: Cursor,
    ghost small: { vec_len bytes ≤ 65536 },
    ghost room: { vec_len bytes + 1 ≤ vec_capacity line },
    ghost within: { cursor.taken ≤ vec_len line },
    ghost begun: { Begun bytes.items next line.items number },
}

/// Why a text cannot be made.
#[derive(Clone, Copy, Debug, PartialEq, Eq)]
pub enum MakeFault {
    NoMemory,
    Refused(PileFault),
}

impl From<AllocError> for MakeFault {
    ghost from_gives = { λ _ r. r ≡ NoMemory };

    fn from(_: AllocError) -> MakeFault {
        MakeFault::NoMemory
    }
}

impl From<PileFault> for MakeFault {
    ghost from_gives = { λ e r. r ≡ Refused e };

    fn from(fault: PileFault) -> MakeFault {
        MakeFault::Refused(fault)
    }
}
