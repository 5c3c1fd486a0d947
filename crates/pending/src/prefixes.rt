ghost use Rattle.std.specs.Prelude.{◌≡◌};
ghost use Rattle.pending.specs.Underway.{joint};

use crate::task::Prefix;

impl Prefix {
    /// The two together.
    pub fn and(self, more: Prefix) -> Prefix
        ensures { result ≡ joint self more }
    {
        Prefix {
            global: self.global || more.global,
            long: self.long || more.long,
        }
    }
}
