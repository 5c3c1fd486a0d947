ghost use Rattle.std.specs.Prelude.{◌≡◌, ◌+◌, ◌^◌, ◌<◌, length};
ghost use Rattle.driving.specs.declared.status.Status.TheVariants.{Skipping};
ghost use Rattle.pending.specs.Opened.{parts_of};
ghost use Rattle.rules.specs.Expanding.{at_else_of, decided};
ghost use Rattle.gullet.specs.Does.{Does, Finds, ReadsOn};
ghost use Rattle.gullet.specs.Passing.{under, skipping, turn_at};

use crate::fault::{Cause, GulletFault};
use crate::feeding::fed;
use crate::parts::Gullet;
use crate::skipping::Skip;
use crate::turn::Turn;
use driving::{Guard, Status};
use pending::Part;
use rules::{Found, GulletRefusal, Until};
use sources::Source;
use tokens::Answer;

// What becomes of the open conditionals where a skip ends.
impl From<Found> for Turn {
    ghost from_gives = { λ found r. r ≡ turn_at found };

    fn from(found: Found) -> Turn {
        match found {
            Found::Else => Turn::BeginSecond,
            Found::Fi => Turn::Keep,
        }
    }
}

impl<S: Source> Gullet<S> {
    // Skips to where a part of a conditional ends.
    fn skip(&mut self, until: Until) -> Result<Found, GulletFault>
        ensures finds { Finds self.old self.new result (under Skipping) (λ s r. skipping s r until) }
        ensures onward { ReadsOn self.old self.new }
    {
        let guard = Guard::enter(&mut self.scan, Status::Skipping);
        let status = guard.status();
        let rule = Skip {
            book: &self.book,
            until,
        };
        fed(&mut self.source, &self.book, &mut self.names, &rule, 0).map_err(|fault| GulletFault {
            cause: Cause::Pile(fault),
            status,
        })
    }

    // An \else, where the innermost conditional is in its first part: its second is skipped.
    pub(crate) fn else_part(&mut self) -> Result<Answer, GulletFault>
        ensures does { Does self.old self.new result (λ s r. at_else_of s r s.conditionals) }
        ensures onward { ReadsOn self.old self.new }
    {
        if self.conditionals.innermost_part() != Some(Part::First) {
            return Err(self.refusal(GulletRefusal::Misplaced));
        }
        self.skip(Until::OnlyFi)?;
        self.conclude(Turn::Close)
    }

    // A conditional is decided: it is open in its first part, or, if it is false, skipped to its \else or \fi.
    pub(crate) fn decide(&mut self, truth: bool) -> Result<Answer, GulletFault>
        requires few { length (parts_of self.old.conditionals) < 100 }
        ensures does { Does self.old self.new result (λ s r. decided s r truth) }
        ensures onward { ReadsOn self.old self.new }
    {
        if truth {
            return self.conclude(Turn::Begin);
        }
        let found = self.skip(Until::ElseOrFi)?;
        self.conclude(Turn::from(found))
    }
}
