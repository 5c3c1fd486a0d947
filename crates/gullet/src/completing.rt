ghost use Rattle.std.specs.Prelude.{◌≡◌};
ghost use Rattle.rules.specs.States.{completed};
ghost use Rattle.gullet.specs.Does.{Does, Unread};

use crate::fault::GulletFault;
use crate::parts::Gullet;
use crate::putting::put_behind;
use sources::Source;
use tokens::{Answer, Token};

impl<S: Source> Gullet<S> {
    // An expansion is complete: its result is put back, and in front of it what waits for it.
    pub(crate) fn complete(&mut self, res: &[Token]) -> Result<Answer, GulletFault>
        ensures does { Does self.old self.new result (λ s r. completed s r s.conditionals res.now) }
        ensures below { Unread self.old self.new }
    {
        self.waiting.held.clear();
        // at most 64 wait, for which there is room
        let _ = self.tasks.copy_waiting(&mut self.waiting.held);
        put_behind(&mut self.source, &self.waiting.held, res)?;
        self.tasks.end_waiting();
        Ok(Answer::Working)
    }
}
