ghost use Rattle.std.specs.Prelude.{◌≡◌};
ghost use Rattle.pending.specs.Opened.{parts_of};
ghost use Rattle.gullet.specs.Turns.{turned};

use pending::Conditionals;

// What becomes of the open conditionals when an expansion is complete. It is no closure: `turned` says what each does,
// where a closure's clause could only say that it was called.
#[derive(Clone, Copy, Debug, PartialEq, Eq)]
pub(crate) enum Turn {
    Keep,
    Close,
    Begin,
    BeginSecond,
}

pub(crate) fn turn_to(conditionals: &mut Conditionals, turn: Turn)
    ensures { parts_of conditionals.new ≡ turned turn (parts_of conditionals.old) }
{
    match turn {
        Turn::Keep => {}
        Turn::Close => {
            let _ = conditionals.finish();
        }
        Turn::Begin => {
            let _ = conditionals.begin();
        }
        Turn::BeginSecond => {
            let _ = conditionals.begin();
            let _ = conditionals.to_second();
        }
    }
}
