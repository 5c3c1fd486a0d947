ghost use Rattle.std.specs.Prelude.{◌≡◌};
ghost use Rattle.names.specs.Spelled.{listed};
ghost use Rattle.driving.specs.declared.status.Status.TheVariants.{Matching};
ghost use Rattle.driving.specs.Drives.{stands_at};
ghost use Rattle.matcher.specs.Calls.{called, call_answer, Called};
ghost use Rattle.matcher.specs.Going.{given};
ghost use Rattle.matcher.specs.Held.{arguments_of};

use crate::arguments::Arguments;
use crate::dividing::divide;
use crate::text::ParameterText;
use calls::MatcherFault;
use driving::{Guard, Scan, Status};
use names::Names;
use sources::Source;
use tokens::Category;

/// Reads the arguments of a macro's call from a source. Where there is a fault no arguments are left.
pub fn matched<S: Source>(
    source: &mut S,
    categories: &[Category; 256],
    names: &mut Names,
    scan: &mut Scan,
    long: bool,
    text: ParameterText<'_>,
    arguments: &mut Arguments,
) -> Result<(), MatcherFault>
    ensures answer { result ≡ call_answer Matching (S.Source.place source.new) (called categories.now long text.entry.words.now (listed names.old) (S.Source.ahead source.old)) }
    ensures arguments { arguments_of arguments.new ≡ given (called categories.now long text.entry.words.now (listed names.old) (S.Source.ahead source.old)) }
    ensures names { listed names.new ≡ (stands_at (called categories.now long text.entry.words.now (listed names.old) (S.Source.ahead source.old))).names }
    ensures items { S.Source.ahead source.new ≡ (stands_at (called categories.now long text.entry.words.now (listed names.old) (S.Source.ahead source.old))).items }
    ensures reached { Called S.Source.reads categories.now long text.entry.words.now (listed names.old) (S.Source.ahead source.old) source.old source.new }
    ensures scan { scan.new ≡ scan.old }
{
    let guard = Guard::enter(scan, Status::Matching);
    arguments.clear();
    // A match: the closure of `map_err` would have to clear the arguments and read the guard.
    match divide(source, categories, names, long, text.words, arguments) {
        Ok(()) => Ok(()),
        Err(cause) => {
            arguments.clear();
            Err(MatcherFault {
                cause,
                status: guard.status(),
            })
        }
    }
}
