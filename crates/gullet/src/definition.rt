ghost use Rattle.std.specs.Prelude.{[]};
ghost use Rattle.names.specs.Spelled.{listed};
ghost use Rattle.book.specs.Said.{book_of};
ghost use Rattle.rules.specs.Defining.{in_text, definition_feed};
ghost use Rattle.rules.specs.States.{meanings_of};
ghost use Rattle.gullet.specs.Drafts.{defined_of};
ghost use Rattle.gullet.specs.Fed.{Drives, Feeds};

use crate::draft::{DefinitionEnd, Draft, Stage};
use crate::feeding::categories;
use book::Book;
use driving::needed;
use names::Names;
use piles::PutBack;
use sources::{PileFault, Source};
use std::ops::ControlFlow;
use tokens::Category;

// Reads a definition behind its name from any source, and keeps its words in the draft. It is no rule for `driven`:
// a rule is lent unchanged, and the draft grows.
fn drafted<S: Source>(
    source: &mut S,
    categories: &[Category; 256],
    names: &mut Names,
    book: &Book,
    draft: &mut Draft,
) -> Result<DefinitionEnd, PileFault>
    ensures { Drives S.Source categories.now (listed names.old) (listed names.new) source.old source.new (defined_of result draft.new) (definition_feed (meanings_of (book_of book.now))) (in_text [] 0) }
{
    draft.parameters.held.clear();
    draft.stage = Stage::InText { count: 0 };
    'tokens: loop {
        let token = needed(source, categories, names)?;
        match draft.feed(book, token) {
            ControlFlow::Continue(()) => {}
            ControlFlow::Break(end) => return Ok(end),
        }
    }
}

// Reads a definition behind its name: once it is defined, the draft has its parameter text and body.
pub(crate) fn read_definition<S: Source>(
    source: &mut PutBack<S>,
    book: &Book,
    names: &mut Names,
    draft: &mut Draft,
) -> Result<DefinitionEnd, PileFault>
    ensures { Feeds S.Source (book_of book.now) names.old names.new source.old source.new (defined_of result draft.new) (definition_feed (meanings_of (book_of book.now))) (in_text [] 0) }
{
    drafted(source, categories(book), names, book, draft)
}
