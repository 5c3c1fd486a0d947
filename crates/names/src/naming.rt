ghost use Rattle.std.specs.Prelude.{◌≡◌, map, IfOk};
ghost use Rattle.std.specs.Option.{option_map};
ghost use Rattle.names.specs.Naming.{number_in, spelling_in, taken_in, enter, number_of, names_after, first_names};
ghost use Rattle.names.specs.Spelled.{listed};

use crate::fault::NamesFault;
use crate::names::Names;
use crate::table::{FIRST_NUMBER, Table};
use std::alloc::{AllocError, Global};

// The spellings of the primitives, from the number 256 on.
fn primitives() -> [&'static [u8]; 16]
    ensures { map (λ x. x.now) result ≡ first_names }
{
    [
        b"relax",
        b"par",
        b"def",
        b"gdef",
        b"let",
        b"global",
        b"long",
        b"catcode",
        b"begingroup",
        b"endgroup",
        b"expandafter",
        b"ifx",
        b"iftrue",
        b"iffalse",
        b"else",
        b"fi",
    ]
}

impl Names {
    /// The names with the primitives' spellings, and memory for all that may come.
    pub fn new(heap: Global) -> Result<Names, AllocError>
        ensures made { IfOk result (λ n. listed n ≡ first_names) }
    {
        let mut table = Table::new(heap)?;
        table.enter_all(&primitives());
        Ok(Names { table })
    }

    /// The number of a spelling, entered now if it is new.
    pub fn enter(&mut self, spelling: &[u8]) -> Result<u16, NamesFault>
        ensures answer { result ≡ number_of (enter (listed self.old) spelling.now) }
        ensures names { listed self.new ≡ names_after (listed self.old) (enter (listed self.old) spelling.now) }
    {
        self.table.enter(spelling)
    }

    /// The number of a spelling, if it has one.
    pub fn number(&self, spelling: &[u8]) -> Option<u16>
        ensures { result ≡ number_in (listed self.now) spelling.now }
    {
        self.table.sought(spelling)
    }

    /// The spelling of a number, if it has one.
    pub fn spelling(&self, number: u16) -> Option<&[u8]>
        ensures { option_map (λ x. x.now) result ≡ spelling_in (listed self.now) number }
    {
        let place = number.checked_sub(FIRST_NUMBER)?;
        self.table.spelling_at(usize::from(place))
    }

    /// How many numbers are taken, with those of the active characters.
    pub fn taken(&self) -> u16
        ensures { result ≡ taken_in (listed self.now) }
    {
        FIRST_NUMBER + self.table.len() as u16
    }
}
