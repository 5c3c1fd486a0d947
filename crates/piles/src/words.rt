ghost use Rattle.std.specs.Prelude.{◌≡◌, is_some};
ghost use Rattle.names.specs.Spelled.{listed};
ghost use Rattle.piles.specs.Inserting.{known_token, first_bad};

use names::Names;
use tokens::Token;

// Whether a word is a character's, or that of a name whose number is taken.
fn is_known(word: u32, names: &Names) -> bool
    ensures { result ≡ is_some (known_token (listed names.now) word) }
{
    match Token::try_from(word) {
        Ok(Token::Name(number)) => number < names.taken(),
        Ok(Token::Character(_, _)) => true,
        Err(_) => false,
    }
}

// Where the first word stands that is not known, if there is one. A loop with the index, as the rule goes by which every word
// of the list is looked at before any is put.
pub(crate) fn first_bad(words: &[u32], names: &Names) -> Option<usize>
    ensures { result ≡ first_bad 0 (listed names.now) words.now }
{
    for (i, word) in words.iter().enumerate() {
        if !is_known(*word, names) {
            return Some(i);
        }
    }
    None
}
