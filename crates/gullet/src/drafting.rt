ghost use Rattle.std.specs.Prelude.{◌≡◌, ◌+◌, ◌≤◌, [], ◌∷◌, ◌++◌, length, vec_len};
ghost use Rattle.book.specs.Said.{book_of};
ghost use Rattle.matching.specs.Matching.{on};
ghost use Rattle.rules.specs.Defining.{in_text, hash_in_text, in_body, hash_in_body, room, one_more, definition_feed};
ghost use Rattle.rules.specs.States.{meanings_of};
ghost use Rattle.rules.specs.Tokens.{Meanings};
ghost use Rattle.gullet.specs.Drafts.{at_stage, view, moved};
ghost use Rattle.gullet.specs.Stages.{depth_of};

use crate::draft::{DefinitionEnd, Draft, Stage, WORDS_LIMIT};
use crate::telling::{digit_of, is_digit, is_hash};
use book::Book;
use driving::{is_close, is_open};
use std::ops::ControlFlow;
use tokens::{BodyWord, ParameterWord, Token};

impl Draft {
    // Reading goes on at a stage.
    fn go_on(&mut self, stage: Stage) -> ControlFlow<DefinitionEnd>
        requires { depth_of stage ≤ vec_len self.old.body.held }
        ensures { moved result self.new ≡ on (at_stage stage self.old.parameters.held.items self.old.body.held.items) }
    {
        self.stage = stage;
        ControlFlow::Continue(())
    }

    // One word more in the parameter text, which then has so many parameters.
    fn more_text(&mut self, word: ParameterWord, count: u8) -> ControlFlow<DefinitionEnd>
        ensures { moved result self.new ≡ room (length self.old.parameters.held.items) (in_text (self.old.parameters.held.items ++ word ∷ []) count) }
    {
        if self.parameters.held.len() >= WORDS_LIMIT {
            return ControlFlow::Break(DefinitionEnd::TooLong);
        }
        self.parameters.held.push_reserved(word);
        self.go_on(Stage::InText { count })
    }

    // One word more in the body, behind which braces are so deep.
    fn more_body(&mut self, word: BodyWord, count: u8, depth: u64) -> ControlFlow<DefinitionEnd>
        requires { depth ≤ vec_len self.old.body.held + 1 }
        ensures { moved result self.new ≡ one_more self.old.parameters.held.items count self.old.body.held.items word depth }
    {
        if self.parameters.held.len() >= WORDS_LIMIT - self.body.held.len() {
            return ControlFlow::Break(DefinitionEnd::TooLong);
        }
        self.body.held.push_reserved(word);
        self.go_on(Stage::InBody { count, depth })
    }

    fn in_text(&mut self, book: &Book, count: u8, token: Token) -> ControlFlow<DefinitionEnd>
        ensures { moved result self.new ≡ definition_feed (meanings_of (book_of book.now)) (in_text self.old.parameters.held.items count) token }
    {
        if is_open(token) {
            self.stage = Stage::InBody { count, depth: 0 };
            self.body.held.clear();
            return ControlFlow::Continue(());
        }
        if is_close(token) {
            return ControlFlow::Break(DefinitionEnd::Broken);
        }
        if is_hash(book, token) {
            return self.go_on(Stage::HashInText { count });
        }
        self.more_text(ParameterWord::Token(token), count)
    }

    fn hash_in_text(&mut self, count: u8, token: Token) -> ControlFlow<DefinitionEnd>
        ensures { (f : Meanings) → moved result self.new ≡ definition_feed f (hash_in_text self.old.parameters.held.items count) token }
    {
        if count < 9 && is_digit(count + 1, token) {
            self.more_text(ParameterWord::Parameter, count + 1)
        } else {
            ControlFlow::Break(DefinitionEnd::Broken)
        }
    }

    // It is given the depth that `feed` took out of the stage, so it asks again what the draft's type says; so do the others with one.
    fn in_body(
        &mut self,
        book: &Book,
        count: u8,
        depth: u64,
        token: Token,
    ) -> ControlFlow<DefinitionEnd>
        requires { depth ≤ vec_len self.old.body.held }
        ensures { moved result self.new ≡ definition_feed (meanings_of (book_of book.now)) (in_body self.old.parameters.held.items count self.old.body.held.items depth) token }
    {
        let word = BodyWord::Token(token);
        if is_open(token) {
            return self.more_body(word, count, depth + 1);
        }
        if is_close(token) {
            if depth == 0 {
                return ControlFlow::Break(DefinitionEnd::Defined);
            }
            return self.more_body(word, count, depth - 1);
        }
        if is_hash(book, token) {
            return self.go_on(Stage::HashInBody { count, depth });
        }
        self.more_body(word, count, depth)
    }

    fn hash_in_body(
        &mut self,
        book: &Book,
        count: u8,
        depth: u64,
        token: Token,
    ) -> ControlFlow<DefinitionEnd>
        requires { depth ≤ vec_len self.old.body.held }
        ensures { moved result self.new ≡ definition_feed (meanings_of (book_of book.now)) (hash_in_body self.old.parameters.held.items count self.old.body.held.items depth) token }
    {
        if is_hash(book, token) {
            return self.more_body(BodyWord::Token(token), count, depth);
        }
        match digit_of(token) {
            Some(digit) if 1 <= digit && digit <= count => {
                self.more_body(BodyWord::Reference(digit), count, depth)
            }
            _ => ControlFlow::Break(DefinitionEnd::Broken),
        }
    }

    // Feeds a token to a definition that is being read.
    pub(crate) fn feed(&mut self, book: &Book, token: Token) -> ControlFlow<DefinitionEnd>
        ensures { moved result self.new ≡ definition_feed (meanings_of (book_of book.now)) (view self.old) token }
    {
        match self.stage {
            Stage::InText { count } => self.in_text(book, count, token),
            Stage::HashInText { count } => self.hash_in_text(count, token),
            Stage::InBody { count, depth } => self.in_body(book, count, depth, token),
            Stage::HashInBody { count, depth } => self.hash_in_body(book, count, depth, token),
        }
    }
}
