ghost use Rattle.std.specs.Prelude.{◌≡◌};
ghost use Rattle.calls.specs.Faults.{cause_number, cause_layer, cause_place};

use crate::fault::{MatcherCause, MatcherFault};
use driving::Status;
use sources::Place;
use tokens::Layer;

// What a fault tells, each by its name: none of these is the fault in another form.
impl MatcherFault {
    pub fn number(self) -> u8
        ensures { result ≡ cause_number self.cause }
    {
        match self.cause {
            MatcherCause::Pile(fault) => fault.number(),
            MatcherCause::Matcher(refusal, _) => u8::from(refusal),
        }
    }

    pub fn layer(self) -> Layer
        ensures { result ≡ cause_layer self.cause }
    {
        match self.cause {
            MatcherCause::Pile(fault) => fault.layer(),
            MatcherCause::Matcher(_, _) => Layer::Matcher,
        }
    }

    pub fn place(self) -> Place
        ensures { result ≡ cause_place self.cause }
    {
        match self.cause {
            MatcherCause::Pile(fault) => fault.place(),
            MatcherCause::Matcher(_, place) => place,
        }
    }

    pub fn status(self) -> Status
        ensures { result ≡ self.status }
    {
        self.status
    }
}
