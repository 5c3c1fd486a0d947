ghost use Rattle.std.specs.Prelude.{◌≡◌, ◌≤◌, length, vec_len};
ghost use Rattle.names.specs.Spelled.{listed};
ghost use Rattle.matching.specs.Dividing.{parameters_of};
ghost use Rattle.matching.specs.Laws.{parameters_in};
ghost use Rattle.matching.specs.Matching.{out, begin, matched};
ghost use Rattle.matcher.specs.Going.{Goes};
ghost use Rattle.matcher.specs.Held.{arguments_of};

use crate::arguments::Arguments;
use crate::before::text_before;
use crate::terms::Terms;
use crate::words::{delimiter_at, undelimited_in};
use calls::MatcherCause;
use names::Names;
use sources::Source;
use tokens::{Category, ParameterWord};

// Reads the tokens of a call, and divides them into its arguments.
pub(crate) fn divide<S: Source>(
    source: &mut S,
    categories: &[Category; 256],
    names: &mut Names,
    long: bool,
    words: &[ParameterWord],
    arguments: &mut Arguments,
) -> Result<(), MatcherCause>
    requires empty { (vec_len arguments.old.gathered.held ≡ 0) × (vec_len arguments.old.spans.held ≡ 0) }
    requires short { length words.now ≤ 2048 }
    requires few { parameters_in words.now ≤ 9 }
    ensures { Goes S.Source.reads S.Source.ahead S.Source.place categories.now long (begin (parameters_of words.now)) (listed names.old) source.old result (λ _. out (matched (arguments_of arguments.new))) (listed names.new) source.new }
{
    text_before(source, categories, names, words)?;
    let before = delimiter_at(words);
    let mut rest = &words[before.words.len()..];
    let mut counted = 0;
    'parameters: while let Some((_, behind)) = rest.split_first() {
        let delimiter = delimiter_at(behind);
        rest = &behind[delimiter.words.len()..];
        let terms = Terms {
            long,
            counted,
            few: undelimited_in(rest),
        };
        counted += arguments.read(source, categories, names, terms, delimiter)?;
    }
    Ok(())
}
