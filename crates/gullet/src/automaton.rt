ghost use Rattle.std.specs.Prelude.{◌≡◌, ℕ, ◌+◌};
ghost use Rattle.tokens.specs.declared.token.Token.{Token};
ghost use Rattle.matching.specs.Matching.{Move};
ghost use Rattle.gullet.specs.Automata.{meant, Within};

use std::ops::ControlFlow;
use tokens::Token;

// A rule that is fed tokens: it stands in a phase, and each token moves it on or out.
pub(crate) trait Automaton {
    type Phase: Copy;

    type Outcome: Copy;

    ghost feeds: { Self → Self.Phase → Token → Move Self.Phase Self.Outcome };

    // A count that a phase holds, which one token raises by one at most: 0, for a rule that does not count.
    ghost held: { Self → Self.Phase → ℕ } = { λ _ _. 0 };

    // The counts with which it can be fed: all of them, for a rule that does not count.
    ghost bears: { ℕ → Type 0 } = { λ _. Unit {0} };

    fn feed(&self, phase: Self::Phase, token: Token) -> ControlFlow<Self::Outcome, Self::Phase>
        requires { bears (held self.now phase) }
        ensures answer { meant result ≡ feeds self.now phase token }
        ensures grows { Within (held self.now) (held self.now phase + 1) (meant result) };
}
