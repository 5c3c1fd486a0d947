ghost use Rattle.std.specs.Prelude.{◌≡◌, Some};
ghost use Rattle.tokens.specs.Categories.{category_of};
ghost use Rattle.rules.specs.Assigning.{recoded_as, recoded_by, recoding_of, recoding_by, recoding};
ghost use Rattle.gullet.specs.Does.{Does, ReadsOn, Unread};

use crate::fault::GulletFault;
use crate::feeding::fed;
use crate::parts::Gullet;
use crate::recoding::{Numbers, Subjects, byte_of};
use crate::telling::is_space;
use piles::PUT_BACK_LIMIT;
use rules::{GulletRefusal, Number, Subject};
use sources::{PileFault, PileRefusal, Source};
use tokens::{Answer, Category, Entry, Scope, Token};

impl<S: Source> Gullet<S> {
    // A code has the category of a number from now on, and no task is under way any more.
    fn give_category(&mut self, code: u8, number: u8, scope: Scope) -> Result<Answer, GulletFault>
        ensures does { Does self.old self.new result (λ s r. recoded_as s code scope r s.stands (category_of number)) }
        ensures below { Unread self.old self.new }
    {
        let Ok(category) = Category::try_from(number) else {
            return Err(self.refusal(GulletRefusal::BadCatcode));
        };
        self.book
            .assign_category(code, category, scope)
            .map_err(|fault| self.refused_by_book(fault))?;
        self.tasks.clear();
        Ok(Answer::Assigned(scope, Entry::Code(code, category)))
    }

    // The same, with the token behind the digits: a space is lost, and another is put back.
    fn give_category_before(
        &mut self,
        code: u8,
        number: u8,
        token: Token,
        scope: Scope,
    ) -> Result<Answer, GulletFault>
        ensures does { Does self.old self.new result (λ s r. recoded_by s code scope (Some (number, token)) r) }
        ensures below { Unread self.old self.new }
    {
        if is_space(&self.book, token) {
            return self.give_category(code, number, scope);
        }
        if self.source.held() >= PUT_BACK_LIMIT {
            return Err(PileFault::Pile(PileRefusal::NoRoom, self.source.place()).into());
        }
        let answer = self.give_category(code, number, scope)?;
        let _ = self.source.put_back(&[token]);
        Ok(answer)
    }

    // \catcode behind its character: a number follows.
    fn recode_byte(&mut self, code: u8, scope: Scope) -> Result<Answer, GulletFault>
        ensures does { Does self.old self.new result (λ s r. recoding_of s scope r (Some code)) }
        ensures onward { ReadsOn self.old self.new }
    {
        let found = fed(
            &mut self.source,
            &self.book,
            &mut self.names,
            &Numbers,
            Number::BeforeNumber,
        )?;
        let (number, token) = found.ok_or_else(|| self.refusal(GulletRefusal::BadCatcode))?;
        self.give_category_before(code, number, token, scope)
    }

    // \catcode behind the token that its quote is for.
    fn recode_token(&mut self, token: Token, scope: Scope) -> Result<Answer, GulletFault>
        ensures does { Does self.old self.new result (λ s r. recoding_by s scope (Some token) r) }
        ensures onward { ReadsOn self.old self.new }
    {
        let found = byte_of(&self.names, token);
        let code = found.ok_or_else(|| self.refusal(GulletRefusal::BadCatcode))?;
        self.recode_byte(code, scope)
    }

    // \catcode.
    pub(crate) fn recode(&mut self, scope: Scope) -> Result<Answer, GulletFault>
        ensures does { Does self.old self.new result (λ s r. recoding s r scope) }
        ensures onward { ReadsOn self.old self.new }
    {
        let found = fed(
            &mut self.source,
            &self.book,
            &mut self.names,
            &Subjects,
            Subject::BeforeQuote,
        )?;
        let token = found.ok_or_else(|| self.refusal(GulletRefusal::BadCatcode))?;
        self.recode_token(token, scope)
    }
}
