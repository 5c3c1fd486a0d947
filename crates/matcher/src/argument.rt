ghost use Rattle.std.specs.Prelude.{◌≡◌, ◌+◌, ◌<◌, ◌≤◌, List, [], ◌∷◌, ◌++◌, drop, IfOk, vec_len, OnOk};
ghost use Rattle.tokens.specs.declared.token.Token.{Token as Read};
ghost use Rattle.names.specs.Spelled.{listed};
ghost use Rattle.matching.specs.Dividing.{stripped};
ghost use Rattle.matching.specs.Matching.{fewest, following};
ghost use Rattle.matcher.specs.Going.{Goes};
ghost use Rattle.matcher.specs.Held.{arguments_of};
ghost use Rattle.matcher.specs.Marks.{delimiter_in};
ghost use Rattle.matcher.specs.Spans.{part_of};

use crate::arguments::Arguments;
use crate::delimited::delimited;
use crate::delimiter::Delimiter;
use crate::groups::is_group;
use crate::span::Span;
use crate::terms::Terms;
use crate::undelimited::undelimited;
use calls::MatcherCause;
use names::Names;
use sources::Source;
use tokens::Category;

impl Arguments {
    // The tokens of a span are one more argument.
    fn keep(&mut self, span: Span)
        requires within { (span.from ≤ span.to) × (span.to ≤ vec_len self.old.gathered.held) }
        requires room { vec_len self.old.spans.held < 9 }
        ensures arguments { arguments_of self.new ≡ arguments_of self.old ++ part_of self.old.gathered.held.items span ∷ [] }
        ensures gathered { self.new.gathered ≡ self.old.gathered }
        ensures spans { vec_len self.new.spans.held ≡ vec_len self.old.spans.held + 1 }
    {
        self.spans.held.push_reserved(span);
    }

    // Where the tokens from a place on stand, without the braces of a group.
    fn stripped(&self, from: usize) -> Span
        requires from { from ≤ vec_len self.now.gathered.held }
        requires short { vec_len self.now.gathered.held ≤ 6145 }
        ensures within { (result.from ≤ result.to) × (result.to ≤ vec_len self.now.gathered.held) }
        ensures part { part_of self.now.gathered.held.items result ≡ stripped (drop from self.now.gathered.held.items) }
    {
        let to = self.gathered.held.len();
        if !is_group(&self.gathered.held.as_slice()[from..]) {
            return Span { from, to };
        }
        Span {
            from: from + 1,
            to: to - 1,
        }
    }

    // Reads one more argument, up to its delimiter; tells how many count for it.
    pub(crate) fn read<S: Source>(
        &mut self,
        source: &mut S,
        categories: &[Category; 256],
        names: &mut Names,
        terms: Terms,
        delimiter: Delimiter<'_>,
    ) -> Result<usize, MatcherCause>
        requires held { vec_len self.old.gathered.held ≤ terms.counted }
        requires room { vec_len self.old.spans.held < 9 }
        ensures goes { (ds : List (List Read)) → fewest ds ≡ terms.few → Goes S.Source.reads S.Source.ahead S.Source.place categories.now terms.long (following (arguments_of self.old) terms.counted (delimiter_in delimiter.entry.words.now ∷ ds)) (listed names.old) source.old result (λ n. following (arguments_of self.new) (terms.counted + n) ds) (listed names.new) source.new }
        ensures fits { IfOk result (λ n. (terms.counted + n + terms.few ≤ 4096) × (vec_len self.new.gathered.held ≤ terms.counted + n)) }
        ensures spans { OnOk result (vec_len self.new.spans.held ≡ vec_len self.old.spans.held + 1) }
    {
        let from = self.gathered.held.len();
        if delimiter.words.is_empty() {
            let count = undelimited(source, categories, names, terms, &mut self.gathered)?;
            let to = self.gathered.held.len();
            self.keep(Span { from, to });
            return Ok(count);
        }
        let count = delimited(
            source,
            categories,
            names,
            terms,
            delimiter,
            &mut self.gathered,
        )?;
        let span = self.stripped(from);
        self.keep(span);
        Ok(count)
    }
}
