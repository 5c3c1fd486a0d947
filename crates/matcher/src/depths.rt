ghost use Rattle.std.specs.Prelude.{◌≡◌, ◌<◌, Some};
ghost use Rattle.matching.specs.Braces.{passed};

use driving::{is_close, is_open};
use tokens::Token;

// The depth of braces behind a token; none where it closes a brace that was not opened.
pub(crate) fn passed(depth: usize, token: Token) -> Option<usize>
    requires { depth < 65536 }
    ensures { result ≡ passed (Some depth) token }
{
    if is_open(token) {
        return Some(depth + 1);
    }
    if is_close(token) {
        return depth.checked_sub(1);
    }
    Some(depth)
}
