ghost use Rattle.std.specs.Prelude.{◌≡◌};
ghost use Rattle.sources.specs.declared.fault.PileFault.TheVariants.{Line};
ghost use Rattle.sources.specs.declared.fault.ReadRefusal.TheVariants.{Names};

use names::NamesFault;

/// Where a source stands. Of a text: the line last read from, from 1, and the bytes taken of it.
#[derive(Clone, Copy, Debug, PartialEq, Eq)]
pub struct Place {
    pub line: usize,
    pub bytes: usize,
}

/// Why a line refuses, with the number that the rules give it.
#[derive(Clone, Copy, Debug, PartialEq, Eq)]
pub enum LineRefusal {
    Invalid = 11,
}

/// Why a read is refused: by the line, or by the names for what it spells.
#[derive(Clone, Copy, Debug, PartialEq, Eq)]
pub enum ReadRefusal {
    Line(LineRefusal),
    Names(NamesFault),
}

impl From<NamesFault> for ReadRefusal {
    ghost from_gives = { λ e r. r ≡ Names e };

    fn from(fault: NamesFault) -> ReadRefusal {
        ReadRefusal::Names(fault)
    }
}

/// A refused read of a line, with the place behind the last byte read.
#[derive(Clone, Copy, Debug, PartialEq, Eq)]
pub struct LineFault {
    pub refusal: ReadRefusal,
    pub place: Place,
}

/// Why a pile of sources refuses, with the number that the rules give it.
#[derive(Clone, Copy, Debug, PartialEq, Eq)]
pub enum PileRefusal {
    Ended = 25,
    NoToken = 38,
    PutBackFull = 40,
    NoRoom = 41,
    TextTooLong = 49,
}

/// A fault of a pile keeps the whole fault of the line below.
#[derive(Clone, Copy, Debug, PartialEq, Eq)]
pub enum PileFault {
    Line(LineFault),
    Pile(PileRefusal, Place),
}

impl From<LineFault> for PileFault {
    ghost from_gives = { λ e r. r ≡ Line e };

    fn from(fault: LineFault) -> PileFault {
        PileFault::Line(fault)
    }
}
