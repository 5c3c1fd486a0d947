ghost use Rattle.std.specs.Prelude.{◌≡◌, ◌+◌, ◌≤◌, Some, None, MatchResult};
ghost use Rattle.matcher.specs.Hindering.{hindrance};

use crate::terms::Terms;
use matching::MatcherRefusal;

// The most tokens that may count for a call's arguments.
const COUNT_LIMIT: usize = 4_096;

impl Terms {
    // Whether an argument may go on, where `least` tokens count at least for it; `par` tells whether the name 257 is among them.
    pub(crate) fn allow(self, par: bool, least: usize) -> Result<(), MatcherRefusal>
        requires { least ≤ 65536 }
        ensures { MatchResult result (λ _. hindrance self.long par (self.counted + least + self.few) ≡ None) (λ r. hindrance self.long par (self.counted + least + self.few) ≡ Some r) }
    {
        if !self.long && par {
            return Err(MatcherRefusal::Par);
        }
        if self.counted + least + self.few > COUNT_LIMIT {
            return Err(MatcherRefusal::TooLong);
        }
        Ok(())
    }
}
