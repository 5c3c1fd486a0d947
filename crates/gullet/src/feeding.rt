ghost use Rattle.std.specs.Prelude.{◌≡◌, ℕ, ◌+◌, ◌<◌};
ghost use Rattle.book.specs.Said.{book_of};
ghost use Rattle.rules.specs.States.{categories_of};
ghost use Rattle.gullet.specs.Fed.{Feeds};

use crate::automaton::Automaton;
use crate::driver::driven;
use book::Book;
use names::Names;
use piles::PutBack;
use sources::{PileFault, Source};
use tokens::Category;

// The categories of all codes, as a read takes them.
pub(crate) fn categories(book: &Book) -> &[Category; 256]
    ensures { result.now ≡ categories_of (book_of book.now) }
{
    book.categories()
}

// Feeds a rule with the tokens ahead, until it is out. A gullet lends its parts one by one, since a rule may hold its book.
pub(crate) fn fed<S: Source, A: Automaton>(
    source: &mut PutBack<S>,
    book: &Book,
    names: &mut Names,
    rule: &A,
    start: A::Phase,
) -> Result<A::Outcome, PileFault>
    requires { (n : ℕ) → n < A.Automaton.held rule.now start + (4096 + S.Source.most) → A.Automaton.bears n }
    ensures { Feeds S.Source (book_of book.now) names.old names.new source.old source.new result (A.Automaton.feeds rule.now) start }
{
    driven(source, categories(book), names, rule, start)
}
