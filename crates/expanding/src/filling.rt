ghost use Rattle.std.specs.Prelude.{◌≡◌, ◌+◌, ◌≤◌, [], ◌++◌, length, Some, None, Ok, Err, IfOk, if◌then◌else◌, vec_len, vec_capacity, nat_le};
ghost use Rattle.matcher.specs.Held.{arguments_of};
ghost use Rattle.expanding.specs.Substituting.{argument_at, word_tokens, substituted, expansion_of};

use crate::expansion::{EXPANSION_LIMIT, Expansion, TooLong};
use buffers::Buffer;
use matcher::Arguments;
use std::alloc::{AllocError, Global};
use tokens::{BodyWord, Token};

impl Expansion {
    /// No tokens, and memory for as many as there may be. Its own maker, since it has a view of its own.
    pub fn new(heap: Global) -> Result<Expansion, AllocError>
        ensures { IfOk result (λ e. expansion_of e ≡ []) }
    {
        Ok(Expansion {
            tokens: Buffer::new(heap)?,
        })
    }

    pub fn tokens(&self) -> &[Token]
        ensures { result.now ≡ expansion_of self.now }
    {
        self.tokens.held.as_slice()
    }
}

// Puts tokens behind others, where there is room. No `extend_from_slice`: the library does not say that it takes no memory.
fn append(tokens: &mut Vec<Token>, more: &[Token])
    requires { vec_len tokens.old + length more.now ≤ vec_capacity tokens.old }
    ensures items { tokens.new.items ≡ tokens.old.items ++ more.now }
    ensures len { vec_len tokens.new ≡ vec_len tokens.old + length more.now }
    ensures capacity { vec_capacity tokens.new ≡ vec_capacity tokens.old }
{
    'more: for token in more {
        tokens.push_reserved(*token);
    }
}

// The tokens of a reference's argument.
fn referred(arguments: &Arguments, reference: u8) -> &[Token]
    ensures { result.now ≡ argument_at (arguments_of arguments.now) reference }
{
    reference
        .checked_sub(1)
        .and_then(|before| arguments.get(before as usize))
        .unwrap_or(&[])
}

fn word_length(arguments: &Arguments, word: BodyWord) -> usize
    ensures { result ≡ length (word_tokens (arguments_of arguments.now) word) }
{
    match word {
        BodyWord::Token(_) => 1,
        BodyWord::Reference(reference) => referred(arguments, reference).len(),
    }
}

/// How many tokens a body gives with these arguments; none where there are more than 4,096.
pub fn expansion_length(arguments: &Arguments, body: &[BodyWord]) -> Option<usize>
    ensures { result ≡ (if nat_le (length (substituted (arguments_of arguments.now) body.now)) 4096 then Some (length (substituted (arguments_of arguments.now) body.now)) else None) }
{
    let mut count = 0usize;
    // A `for` with `?`: the proof of a `try_fold` did not close.
    'body: for word in body {
        count = count
            .checked_add(word_length(arguments, *word))
            .filter(|count| *count <= EXPANSION_LIMIT)?;
    }
    Some(count)
}

impl Expansion {
    fn fill(&mut self, arguments: &Arguments, body: &[BodyWord])
        requires empty { expansion_of self.old ≡ [] }
        requires fits { length (substituted (arguments_of arguments.now) body.now) ≤ 4096 }
        ensures items { expansion_of self.new ≡ substituted (arguments_of arguments.now) body.now }
        ensures capacity { vec_capacity self.new.tokens.held ≡ vec_capacity self.old.tokens.held }
    {
        'body: for word in body {
            match *word {
                BodyWord::Token(token) => self.tokens.held.push_reserved(token),
                BodyWord::Reference(reference) => {
                    append(&mut self.tokens.held, referred(arguments, reference))
                }
            }
        }
    }

    /// Writes the tokens that a body gives with these arguments; where they do not fit, none are written.
    pub fn substitute(&mut self, arguments: &Arguments, body: &[BodyWord]) -> Result<(), TooLong>
        ensures answer { result ≡ (if nat_le (length (substituted (arguments_of arguments.now) body.now)) 4096 then Ok tt else Err (record {})) }
        ensures tokens { expansion_of self.new ≡ (if nat_le (length (substituted (arguments_of arguments.now) body.now)) 4096 then substituted (arguments_of arguments.now) body.now else []) }
    {
        self.tokens.held.clear();
        expansion_length(arguments, body).ok_or(TooLong)?;
        self.fill(arguments, body);
        Ok(())
    }
}
