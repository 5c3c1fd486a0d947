ghost use Rattle.std.specs.Prelude.{◌≡◌};
ghost use Rattle.book.specs.Faults.{number_of, layer_of};

use tokens::Layer;

/// What the book refuses, with its number.
#[derive(Clone, Copy, Debug, PartialEq, Eq)]
pub enum BookFault {
    WrongGroup = 36,
    DefinitionTooLong = 43,
    WordsFull = 44,
    RecordsFull = 45,
    GroupsFull = 46,
}

impl From<BookFault> for u8 {
    ghost from_gives = { λ fault n. n ≡ number_of fault };

    fn from(fault: BookFault) -> u8 {
        fault as u8
    }
}

impl BookFault {
    /// Every fault here is the book's own.
    pub fn layer(self) -> Layer
        ensures { result ≡ layer_of self }
    {
        Layer::Book
    }
}
