ghost use Rattle.std.specs.Prelude.{◌≡◌};
ghost use Rattle.matching.specs.Braces.{is_par};

use tokens::Token;

const PAR: u16 = 257;

// Whether a token is the name 257.
pub(crate) fn is_par(token: Token) -> bool
    ensures { result ≡ is_par token }
{
    token == Token::Name(PAR)
}
