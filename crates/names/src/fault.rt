ghost use Rattle.std.specs.Prelude.{◌≡◌};
ghost use Rattle.names.specs.Naming.{fault_number};

/// Why a spelling was not entered.
#[derive(Clone, Copy, Debug, PartialEq, Eq)]
pub enum NamesFault {
    // It has over 32 bytes.
    TooLong = 12,
    // It is new, and all 1,024 numbers are taken.
    Full = 13,
}

impl From<NamesFault> for u8 {
    ghost from_gives = { λ fault n. n ≡ fault_number fault };

    fn from(fault: NamesFault) -> u8 {
        fault as u8
    }
}
