ghost use Rattle.std.specs.Prelude.{◌≡◌};
ghost use Rattle.rules.specs.Sheets.{Sheets};

/// The worked service sheets stand; tells how many there are.
pub fn sheets_stand() -> u8
    ensures sheets { Sheets }
    ensures count { result ≡ 8 }
{
    8
}
