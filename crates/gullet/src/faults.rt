ghost use Rattle.std.specs.Prelude.{◌≡◌};
ghost use Rattle.gullet.specs.Faults.{number_of, layer_of, place_of};

use crate::fault::{Cause, GulletFault};
use driving::Status;
use sources::Place;
use tokens::Layer;

// What a fault tells, each by its name: none of these is the fault in another form.
impl GulletFault {
    pub(crate) fn number(self) -> u8
        ensures { result ≡ number_of self.cause }
    {
        match self.cause {
            Cause::Pile(fault) => fault.number(),
            Cause::Matcher(refusal, _) => u8::from(refusal),
            Cause::Book(fault, _) => u8::from(fault),
            Cause::Gullet(refusal, _) => u8::from(refusal),
        }
    }

    // The layer in which it arose.
    pub(crate) fn layer(self) -> Layer
        ensures { result ≡ layer_of self.cause }
    {
        match self.cause {
            Cause::Pile(fault) => fault.layer(),
            Cause::Matcher(_, _) => Layer::Matcher,
            Cause::Book(fault, _) => fault.layer(),
            Cause::Gullet(_, _) => Layer::Gullet,
        }
    }

    pub(crate) fn place(self) -> Place
        ensures { result ≡ place_of self.cause }
    {
        match self.cause {
            Cause::Pile(fault) => fault.place(),
            Cause::Matcher(_, place) | Cause::Book(_, place) | Cause::Gullet(_, place) => place,
        }
    }

    pub(crate) fn status(self) -> Status
        ensures { result ≡ self.status }
    {
        self.status
    }
}
