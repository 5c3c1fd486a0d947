ghost use Rattle.std.specs.Prelude.{◌≡◌};
ghost use Rattle.sources.specs.Faults.{line_number, pile_number, read_number, read_layer, fault_number, fault_layer, fault_place};

use crate::fault::{LineFault, LineRefusal, PileFault, PileRefusal, Place, ReadRefusal};
use tokens::Layer;

impl From<LineRefusal> for u8 {
    ghost from_gives = { λ refusal n. n ≡ line_number refusal };

    fn from(line: LineRefusal) -> u8 {
        line as u8
    }
}

impl From<PileRefusal> for u8 {
    ghost from_gives = { λ refusal n. n ≡ pile_number refusal };

    fn from(pile: PileRefusal) -> u8 {
        pile as u8
    }
}

// What a fault tells, each by its name: none of these is the fault in another form.
impl LineFault {
    pub fn number(self) -> u8
        ensures { result ≡ read_number self.refusal }
    {
        match self.refusal {
            ReadRefusal::Line(refusal) => u8::from(refusal),
            ReadRefusal::Names(fault) => u8::from(fault),
        }
    }

    pub fn layer(self) -> Layer
        ensures { result ≡ read_layer self.refusal }
    {
        match self.refusal {
            ReadRefusal::Line(_) => Layer::Line,
            ReadRefusal::Names(_) => Layer::Names,
        }
    }
}

// What a fault tells, each by its name: none of these is the fault in another form.
impl PileFault {
    pub fn number(self) -> u8
        ensures { result ≡ fault_number self }
    {
        match self {
            PileFault::Line(fault) => fault.number(),
            PileFault::Pile(refusal, _) => u8::from(refusal),
        }
    }

    pub fn layer(self) -> Layer
        ensures { result ≡ fault_layer self }
    {
        match self {
            PileFault::Line(fault) => fault.layer(),
            PileFault::Pile(_, _) => Layer::Pile,
        }
    }

    pub fn place(self) -> Place
        ensures { result ≡ fault_place self }
    {
        match self {
            PileFault::Line(fault) => fault.place,
            PileFault::Pile(_, place) => place,
        }
    }
}
