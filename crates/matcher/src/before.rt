ghost use Rattle.std.specs.Prelude.{Bool, List, []};
ghost use Rattle.tokens.specs.declared.token.Token.{Token};
ghost use Rattle.names.specs.Spelled.{listed};
ghost use Rattle.matching.specs.Matching.{awaiting, following};
ghost use Rattle.matcher.specs.Going.{Goes};
ghost use Rattle.matcher.specs.Marks.{delimiter_in};

use calls::MatcherCause;
use driving::needed;
use matching::MatcherRefusal;
use names::Names;
use sources::Source;
use tokens::{Category, ParameterWord};

// Reads the text before the first parameter. A word is looked at only when those before it stood in the source,
// so a call refused at its first token costs no more for a long text.
pub(crate) fn text_before<S: Source>(
    source: &mut S,
    categories: &[Category; 256],
    names: &mut Names,
    words: &[ParameterWord],
) -> Result<(), MatcherCause>
    ensures { (long : Bool) (ds : List (List Token)) → Goes S.Source.reads S.Source.ahead S.Source.place categories.now long (awaiting (delimiter_in words.now) ds) (listed names.old) source.old result (λ _. following [] 0 ds) (listed names.new) source.new }
{
    'words: for word in words {
        let ParameterWord::Token(wanted) = *word else {
            return Ok(());
        };
        let token = needed(source, categories, names)?;
        if wanted != token {
            return Err(MatcherCause::Matcher(MatcherRefusal::Differs, source.place()));
        }
    }
    Ok(())
}
