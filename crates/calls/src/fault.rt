ghost use Rattle.std.specs.Prelude.{◌≡◌};
ghost use Rattle.calls.specs.declared.fault.MatcherCause.TheVariants.{Pile};

use driving::Status;
use matching::MatcherRefusal;
use sources::{PileFault, Place};

/// Why a call's arguments cannot be read. It keeps the whole fault of the pile below.
#[derive(Clone, Copy, Debug, PartialEq, Eq)]
pub enum MatcherCause {
    Pile(PileFault),
    Matcher(MatcherRefusal, Place),
}

impl From<PileFault> for MatcherCause {
    ghost from_gives = { λ e r. r ≡ Pile e };

    fn from(fault: PileFault) -> MatcherCause {
        MatcherCause::Pile(fault)
    }
}

/// A fault of the matcher, with the scanning status in which it came.
#[derive(Clone, Copy, Debug, PartialEq, Eq)]
pub struct MatcherFault {
    pub cause: MatcherCause,
    pub status: Status,
}
