ghost use Rattle.std.specs.Prelude.{ℕ, ◌+◌, ◌<◌};
ghost use Rattle.names.specs.Spelled.{listed};
ghost use Rattle.gullet.specs.Fed.{Drives};

use crate::automaton::Automaton;
use driving::needed;
use names::Names;
use sources::{PileFault, Source};
use std::ops::ControlFlow;
use tokens::Category;

// Reads tokens and feeds them to a rule, from its start on, until it is out.
pub(crate) fn driven<S: Source, A: Automaton>(
    source: &mut S,
    categories: &[Category; 256],
    names: &mut Names,
    automaton: &A,
    start: A::Phase,
) -> Result<A::Outcome, PileFault>
    requires { (n : ℕ) → n < A.Automaton.held automaton.now start + S.Source.most → A.Automaton.bears n }
    ensures { Drives S.Source categories.now (listed names.old) (listed names.new) source.old source.new result (A.Automaton.feeds automaton.now) start }
{
    let mut phase = start;
    'tokens: loop {
        let token = needed(source, categories, names)?;
        match automaton.feed(phase, token) {
            ControlFlow::Continue(more) => phase = more,
            ControlFlow::Break(end) => return Ok(end),
        }
    }
}
