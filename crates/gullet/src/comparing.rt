ghost use Rattle.std.specs.Prelude.{◌+◌, ◌^◌, ◌<◌, length};
ghost use Rattle.pending.specs.Opened.{parts_of};
ghost use Rattle.rules.specs.Expanding.{compared, decided, unless_open};
ghost use Rattle.gullet.specs.Does.{Does, ReadsOn};

use crate::fault::GulletFault;
use crate::feeding::fed;
use crate::naming::Two;
use crate::parts::Gullet;
use crate::telling::meaning_of;
use rules::GulletRefusal;
use sources::Source;
use tokens::Answer;

impl<S: Source> Gullet<S> {
    // Two tokens are read, and whether their meanings agree decides a conditional.
    pub(crate) fn compare(&mut self) -> Result<Answer, GulletFault>
        requires few { length (parts_of self.old.conditionals) < 100 }
        ensures does { Does self.old self.new result compared }
        ensures onward { ReadsOn self.old self.new }
    {
        let (one, other) = fed(&mut self.source, &self.book, &mut self.names, &Two, None)?;
        let truth = meaning_of(&self.book, one) == meaning_of(&self.book, other);
        self.decide(truth)
    }

    // A conditional that is decided already, unless 100 are open.
    pub(crate) fn begin_decided(&mut self, truth: bool) -> Result<Answer, GulletFault>
        ensures does { Does self.old self.new result (λ s r. unless_open s r (decided s r truth)) }
        ensures onward { ReadsOn self.old self.new }
    {
        if self.conditionals.is_full() {
            return Err(self.refusal(GulletRefusal::ConditionalsFull));
        }
        self.decide(truth)
    }

    // A conditional that compares two tokens, unless 100 are open. As `begin_decided`, one test before another call of the rules.
    pub(crate) fn begin_compared(&mut self) -> Result<Answer, GulletFault>
        ensures does { Does self.old self.new result (λ s r. unless_open s r (compared s r)) }
        ensures onward { ReadsOn self.old self.new }
    {
        if self.conditionals.is_full() {
            return Err(self.refusal(GulletRefusal::ConditionalsFull));
        }
        self.compare()
    }
}
