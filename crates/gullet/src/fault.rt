ghost use Rattle.std.specs.Prelude.{◌≡◌};
ghost use Rattle.driving.specs.declared.status.Status.TheVariants.{Normal};
ghost use Rattle.gullet.specs.declared.fault.Cause.TheVariants.{Pile};

use book::BookFault;
use driving::Status;
use matching::MatcherRefusal;
use rules::GulletRefusal;
use sources::{PileFault, Place};

/// Why a call is refused: the whole fault of the pile below, or a refusal with its place.
#[derive(Clone, Copy, Debug, PartialEq, Eq)]
pub enum Cause {
    Pile(PileFault),
    Matcher(MatcherRefusal, Place),
    Book(BookFault, Place),
    Gullet(GulletRefusal, Place),
}

/// A refused call, with the scanning status in which it came.
#[derive(Clone, Copy, Debug, PartialEq, Eq)]
pub struct GulletFault {
    pub cause: Cause,
    pub status: Status,
}

// A fault outside of matching, defining and skipping.
impl From<Cause> for GulletFault {
    ghost from_gives = { λ why r. r ≡ record { cause = why; status = Normal } };

    fn from(cause: Cause) -> GulletFault {
        GulletFault {
            cause,
            status: Status::Normal,
        }
    }
}

impl From<PileFault> for GulletFault {
    ghost from_gives = { λ e r. r ≡ record { cause = Pile e; status = Normal } };

    fn from(fault: PileFault) -> GulletFault {
        Cause::Pile(fault).into()
    }
}
