// The two fields that every word has: its kind, and the 28 bits below.
ghost use Rattle.std.specs.Prelude.{◌≡◌, ◌/◌, ◌%◌, ◌^◌, ◌<◌};
ghost use Rattle.tokens.specs.Words.{word as made};

const KIND_SHIFT: u32 = 28;

const LOW_MASK: u32 = 0x0fff_ffff;

pub(crate) fn kind_of(word: u32) -> u32
    ensures { result ≡ word / 2 ^ 28 }
{
    word >> KIND_SHIFT
}

pub(crate) fn low_of(word: u32) -> u32
    ensures { result ≡ word % 2 ^ 28 }
{
    word & LOW_MASK
}

pub(crate) fn word_of(kind: u32, low: u32) -> u32
    requires kind_fits { kind < 2 ^ 4 }
    requires low_fits { low < 2 ^ 28 }
    ensures { result ≡ made kind low }
{
    kind << KIND_SHIFT | low
}
