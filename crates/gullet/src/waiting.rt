ghost use Rattle.rules.specs.Expanding.{expand_after};
ghost use Rattle.gullet.specs.Does.{Does, ReadsOn};

use crate::fault::GulletFault;
use crate::feeding::fed;
use crate::naming::One;
use crate::parts::Gullet;
use pending::Task;
use rules::GulletRefusal;
use sources::Source;
use tokens::Answer;

impl<S: Source> Gullet<S> {
    // A token is read, and waits for the expansion of what follows.
    pub(crate) fn expand_after(&mut self) -> Result<Answer, GulletFault>
        ensures does { Does self.old self.new result expand_after }
        ensures onward { ReadsOn self.old self.new }
    {
        if self.tasks.is_full() {
            return Err(self.refusal(GulletRefusal::TasksFull));
        }
        let token = fed(&mut self.source, &self.book, &mut self.names, &One, ())?;
        let _ = self.tasks.start(Task::After(token));
        Ok(Answer::Working)
    }
}
