ghost use Rattle.std.specs.Prelude.{◌≡◌, []};
ghost use Rattle.driving.specs.declared.status.Status.TheVariants.{Normal};
ghost use Rattle.rules.specs.Expanding.{at_fi_of};
ghost use Rattle.rules.specs.Refusals.{gullet};
ghost use Rattle.rules.specs.States.{completed};
ghost use Rattle.gullet.specs.Does.{Does, ReadsOn, Unread};
ghost use Rattle.gullet.specs.Faults.{fault_at};
ghost use Rattle.gullet.specs.States.{place_of};
ghost use Rattle.gullet.specs.Turns.{turned};

use crate::fault::{Cause, GulletFault};
use crate::parts::Gullet;
use crate::turn::{Turn, turn_to};
use rules::GulletRefusal;
use sources::Source;
use tokens::Answer;

impl<S: Source> Gullet<S> {
    // A refusal of the gullet itself, where reading stands, outside of matching, defining and skipping.
    pub(crate) fn refusal(&self, refusal: GulletRefusal) -> GulletFault
        ensures { result ≡ fault_at (place_of self.now) (record { cause = gullet refusal; status = Normal }) }
    {
        Cause::Gullet(refusal, self.source.place()).into()
    }

    // An expansion is complete with nothing for its result: then the open conditionals change.
    pub(crate) fn conclude(&mut self, turn: Turn) -> Result<Answer, GulletFault>
        ensures does { Does self.old self.new result (λ s r. completed s r (turned turn s.conditionals) []) }
        ensures below { Unread self.old self.new }
    {
        let answer = self.complete(&[])?;
        turn_to(&mut self.conditionals, turn);
        Ok(answer)
    }

    // A \fi closes the innermost conditional, if one is open.
    pub(crate) fn end_conditional(&mut self) -> Result<Answer, GulletFault>
        ensures does { Does self.old self.new result (λ s r. at_fi_of s r s.conditionals) }
        ensures onward { ReadsOn self.old self.new }
    {
        if self.conditionals.is_empty() {
            return Err(self.refusal(GulletRefusal::Misplaced));
        }
        self.conclude(Turn::Close)
    }
}
