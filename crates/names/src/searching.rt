ghost use Rattle.std.specs.Prelude.{◌≡◌, ◌+◌, ◌<◌, ◌≤◌, [], map, length, IfOk, IfSome, None, Some};
ghost use Rattle.std.specs.Option.{option_map};
ghost use Rattle.std.specs.List.{slice_get};
ghost use Rattle.names.specs.Naming.{number_in, entered, enter, number_of, names_after, enter_all};
ghost use Rattle.names.specs.Spelled.{spelled, held};

use crate::fault::NamesFault;
use crate::spelling::{SPELLING_LIMIT, Sought, Spelling};
use crate::table::{FIRST_NUMBER, HINTS, SPELLINGS_LIMIT, Table};
use indexmap::IndexSet;
use std::alloc::{AllocError, Global};

// Which hint a spelling of one or two bytes has; several may have the same.
fn hint(spelling: &[u8]) -> Option<usize>
    ensures { IfSome result (λ h. h < 1024) }
{
    match spelling {
        [one] => Some(usize::from(*one % 32)),
        [one, two] => Some(usize::from(*one % 32) * 32 + usize::from(*two % 32)),
        _ => None,
    }
}

impl Table {
    // No spelling yet, and memory for all.
    pub(crate) fn new(heap: Global) -> Result<Table, AllocError>
        ensures made { IfOk result (λ t. held t ≡ []) }
    {
        let entries = IndexSet::with_capacity(heap, SPELLINGS_LIMIT)?;
        Ok(Table {
            entries,
            hints: [0; HINTS],
        })
    }

    pub(crate) fn len(&self) -> usize
        ensures value { result ≡ length (held self.now) }
        ensures bound { result ≤ 768 }
    {
        self.entries.len()
    }

    pub(crate) fn spelling_at(&self, place: usize) -> Option<&[u8]>
        ensures { option_map (λ x. x.now) result ≡ slice_get (held self.now) place }
    {
        let spelling = self.entries.get_index(place)?;
        Some(spelling.bytes.as_slice())
    }

    // The place of a short spelling, where its hint is right: that takes a third of the steps of asking the set.
    #[inline(always)]
    fn hinted(&self, spelling: &[u8]) -> Option<usize>
        ensures { IfSome result (λ p. (p < 768) × (number_in (held self.now) spelling.now ≡ Some (256 + p))) }
    {
        let place = usize::from(self.hints[hint(spelling)?]);
        let entry = self.entries.get_index(place)?;
        if entry.bytes.as_slice() != spelling {
            return None;
        }
        Some(place)
    }

    // The number of a spelling, by the set. Not inlined, nor is `add`, so that a right hint is used without setting up what these need.
    #[inline(never)]
    fn in_set(&self, spelling: &[u8]) -> Option<u16>
        ensures { result ≡ number_in (held self.now) spelling.now }
    {
        let place = self.entries.get_index_of(Sought(spelling))?;
        Some(FIRST_NUMBER + place as u16)
    }

    // The number of a spelling.
    #[inline(always)]
    pub(crate) fn sought(&self, spelling: &[u8]) -> Option<u16>
        ensures { result ≡ number_in (held self.now) spelling.now }
    {
        match self.hinted(spelling) {
            Some(place) => Some(FIRST_NUMBER + place as u16),
            None => self.in_set(spelling),
        }
    }

    // Enters a new spelling at the end.
    #[inline(never)]
    fn add(&mut self, spelling: Spelling) -> Result<u16, NamesFault>
        requires absent { number_in (held self.old) (spelled spelling) ≡ None }
        ensures answer { result ≡ number_of (entered (held self.old) (spelled spelling) None) }
        ensures names { held self.new ≡ names_after (held self.old) (entered (held self.old) (spelled spelling) None) }
    {
        let count = self.entries.len();
        if count == SPELLINGS_LIMIT {
            return Err(NamesFault::Full);
        }
        if let Some(hint) = hint(spelling.bytes.as_slice()) {
            self.hints[hint] = count as u16;
        }
        // it is new and there is room, so this puts it last
        let _ = self.entries.insert(spelling).unwrap();
        Ok(FIRST_NUMBER + count as u16)
    }

    // The number of a spelling, entered now if it is new.
    pub(crate) fn enter(&mut self, spelling: &[u8]) -> Result<u16, NamesFault>
        ensures answer { result ≡ number_of (enter (held self.old) spelling.now) }
        ensures names { held self.new ≡ names_after (held self.old) (enter (held self.old) spelling.now) }
    {
        if spelling.len() > SPELLING_LIMIT {
            return Err(NamesFault::TooLong);
        }
        match self.sought(spelling) {
            Some(number) => Ok(number),
            None => self.add(Spelling::of(spelling)),
        }
    }

    // Enters spellings in turn; those that are refused are left out.
    pub(crate) fn enter_all(&mut self, spellings: &[&[u8]])
        ensures { held self.new ≡ enter_all (held self.old) (map (λ x. x.now) spellings.now) }
    {
        for spelling in spellings {
            let _ = self.enter(spelling);
        }
    }
}
