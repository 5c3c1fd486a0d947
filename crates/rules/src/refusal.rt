ghost use Rattle.std.specs.Prelude.{◌≡◌};
ghost use Rattle.rules.specs.Refusals.{refusal_number};

/// Why the gullet itself refuses, with the number that the rules give it.
#[derive(Clone, Copy, Debug, PartialEq, Eq)]
pub enum GulletRefusal {
    // A name that means nothing.
    Undefined = 21,
    // A definition or \let that is broken.
    BadDefinition = 31,
    // A prefix before what takes none.
    BadPrefix = 32,
    // A \catcode that is broken, or above 15.
    BadCatcode = 33,
    // An \else or \fi with no conditional to take it.
    Misplaced = 35,
    // A call from outside while a task is pending.
    Pending = 37,
    // 100 conditionals are open.
    ConditionalsFull = 47,
    // 64 tasks are pending.
    TasksFull = 48,
}

impl From<GulletRefusal> for u8 {
    ghost from_gives = { λ refusal n. n ≡ refusal_number refusal };

    fn from(refusal: GulletRefusal) -> u8 {
        refusal as u8
    }
}
