ghost use Rattle.std.specs.Prelude.{◌≡◌, ℕ, ◌^◌, ◌<◌, ◌≤◌, List, if◌then◌else◌, Some, None, nat_lt};
ghost use Rattle.lines.specs.Line.{Item, Categories};
ghost use Rattle.names.specs.Naming.{Spellings};
ghost use Rattle.names.specs.Spelled.{listed};
ghost use Rattle.sources.specs.declared.fault.Place.{Place};
ghost use Rattle.sources.specs.Ahead.{ahead_of, head_answer, head_names, head_items, extent};

use crate::fault::{PileFault, Place as At};
use names::Names;
use tokens::{Category, Token};

/// Anything that tokens are read from. Its meaning is the list of items ahead, and a place.
pub trait Source {
    ghost ahead: { Self → List Item };

    ghost place: { Self → Place };

    // What one read, under these categories and names, makes of the source.
    ghost reads: { Categories → Spellings → Self → Self → Type 0 };

    // So many bytes and tokens are ahead at most, at any time.
    ghost most: { ℕ };

    // The next token, or nothing where no item is left. Only this changes the place.
    // Two parameters: a struct of both would have to say in every contract that the names behind its borrow are the same ones.
    fn read(
        &mut self,
        categories: &[Category; 256],
        names: &mut Names,
    ) -> Result<Option<Token>, PileFault>
        ensures answer { result ≡ head_answer (place self.new) (ahead_of categories.now (listed names.old) (ahead self.old)) }
        ensures names { listed names.new ≡ head_names (ahead_of categories.now (listed names.old) (ahead self.old)) }
        ensures items { ahead self.new ≡ head_items (ahead_of categories.now (listed names.old) (ahead self.old)) }
        ensures reads { reads categories.now (listed names.old) self.old self.new };

    fn place(&self) -> At
        ensures { result ≡ place self.now };

    // The bound, where it has 64 bits.
    fn most() -> Option<u64>
        ensures { result ≡ (if nat_lt most (2 ^ 64) then Some most else None) };

    ghost bounded: { (s : Self) → extent (ahead s) ≤ most };
}
