ghost use Rattle.std.specs.Prelude.{◌≡◌, ◌+◌, ◌/◌, ◌%◌, ◌^◌, ◌<◌, IfSome, Some};
ghost use Rattle.std.specs.Option.{option_map, ok_or};
ghost use Rattle.tokens.specs.Categories.{category_of};
ghost use Rattle.tokens.specs.declared.answer.Entry.TheVariants.{Code};
ghost use Rattle.tokens.specs.Words.{group_number, group_of, scope_bits, scope_of, entry_bits, entry_of, HeldEntry, assigned_of, answer_word, answer_by_kind, answer_of, ReadsAnswer};

use crate::answer::{Answer, Entry, GroupKind, Scope};
use crate::category::Category;
use crate::fields::{kind_of, low_of, word_of};
use crate::token::Token;
use crate::unknown::Unknown;

const OPENED: u32 = 13;

const CLOSED: u32 = 14;

const ASSIGNED: u32 = 15;

const GLOBAL_BIT: u32 = 1 << 27;

const CODE_BIT: u32 = 1 << 26;

impl From<GroupKind> for u32 {
    ghost from_gives = { λ g n. n ≡ group_number g };

    fn from(group: GroupKind) -> u32 {
        group as u32
    }
}

impl From<GroupKind> for u8 {
    ghost from_gives = { λ g n. n ≡ group_number g };

    fn from(group: GroupKind) -> u8 {
        group as u8
    }
}

impl TryFrom<u32> for GroupKind {
    type Error = Unknown;

    ghost try_from_gives = { λ n r. r ≡ ok_or (group_of n) (record { 0 = n }) };

    fn try_from(number: u32) -> Result<GroupKind, Unknown> {
        match number {
            0 => Ok(GroupKind::Brace),
            1 => Ok(GroupKind::BeginGroup),
            2 => Ok(GroupKind::Host),
            _ => Err(Unknown(number)),
        }
    }
}

impl Scope {
    fn bits(self) -> u32
        ensures { result ≡ scope_bits self }
    {
        match self {
            Scope::Local => 0,
            Scope::Global => GLOBAL_BIT,
        }
    }
}

impl Entry {
    fn bits(self) -> u32
        ensures value { result ≡ entry_bits self }
        ensures below { result < 2 ^ 27 }
        ensures held { HeldEntry self }
    {
        match self {
            Entry::Name(number) => u32::from(number),
            Entry::Code(code, category) => CODE_BIT
                + (u32::from(u8::from(category)) * 256 + u32::from(code)),
        }
    }

    // No `TryFrom`: it is half of a word, read on the way by `?`.
    fn from_bits(bits: u32) -> Option<Entry>
        ensures { result ≡ entry_of bits }
    {
        let low = bits % CODE_BIT;
        if bits / CODE_BIT == 0 {
            return Some(Entry::Name(u16::try_from(low).ok()?));
        }
        coded(low)
    }
}

impl Answer {
    /// The answer's word, which gives back the answer. End and Working have none: an `Option` says so, where the error of a
    /// `TryFrom` would say no more.
    pub fn word(self) -> Option<u32>
        ensures value { result ≡ answer_word self }
        ensures back { IfSome result (λ w. answer_of w ≡ Some self) }
    {
        match self {
            Answer::Delivered(token) => Some(u32::from(token)),
            Answer::Opened(group) => Some(word_of(OPENED, u32::from(group))),
            Answer::Closed(group) => Some(word_of(CLOSED, u32::from(group))),
            Answer::Assigned(scope, entry) => Some(word_of(ASSIGNED, scope.bits() + entry.bits())),
            Answer::End | Answer::Working => None,
        }
    }

    fn from_fields(kind: u32, low: u32) -> Option<Answer>
        ensures { result ≡ answer_by_kind kind low }
    {
        match kind {
            OPENED => Some(Answer::Opened(GroupKind::try_from(low).ok()?)),
            CLOSED => Some(Answer::Closed(GroupKind::try_from(low).ok()?)),
            ASSIGNED => assigned(low),
            _ => Some(Answer::Delivered(Token::from_fields(kind, low)?)),
        }
    }
}

// The one answer that has this word; none where the kind is no answer's or an unused bit is set.
impl TryFrom<u32> for Answer {
    type Error = Unknown;

    ghost try_from_gives = { ReadsAnswer };

    fn try_from(word: u32) -> Result<Answer, Unknown> {
        Answer::from_fields(kind_of(word), low_of(word)).ok_or(Unknown(word))
    }
}

// An assignment to a code: its category over its eight bits.
fn coded(low: u32) -> Option<Entry>
    ensures { result ≡ option_map (λ c. Code (low % 2 ^ 8) c) (category_of (low / 2 ^ 8)) }
{
    let number = u8::try_from(low / 256).ok()?;
    let category = Category::try_from(number).ok()?;
    Some(Entry::Code((low % 256) as u8, category))
}

fn assigned(low: u32) -> Option<Answer>
    ensures { result ≡ assigned_of low }
{
    let scope = if low / GLOBAL_BIT == 0 {
        Scope::Local
    } else {
        Scope::Global
    };
    let entry = Entry::from_bits(low % GLOBAL_BIT)?;
    Some(Answer::Assigned(scope, entry))
}
