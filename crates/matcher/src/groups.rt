ghost use Rattle.std.specs.Prelude.{◌≡◌, ◌≤◌, length};
ghost use Rattle.matching.specs.Braces.{deeper};
ghost use Rattle.matching.specs.Dividing.{is_group};

use crate::depths::passed;
use driving::{is_close, is_open};
use tokens::Token;

// The depth of braces behind tokens; none where one closes that was not opened.
fn deeper(tokens: &[Token]) -> Option<usize>
    requires { length tokens.now ≤ 6145 }
    ensures { result ≡ deeper 0 tokens.now }
{
    let mut depth = 0;
    // A `for` with `?`: the proof of a `try_fold` did not close.
    'tokens: for token in tokens {
        depth = passed(depth, *token)?;
    }
    Some(depth)
}

// Whether tokens are one group: an opening brace, balanced tokens, a closing brace.
pub(crate) fn is_group(tokens: &[Token]) -> bool
    requires { length tokens.now ≤ 6145 }
    ensures { result ≡ is_group tokens.now }
{
    match tokens {
        [first, middle @ .., last] => {
            is_open(*first) && is_close(*last) && deeper(middle) == Some(0)
        }
        _ => false,
    }
}
