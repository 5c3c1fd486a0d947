ghost use Rattle.std.specs.Prelude.{◌≡◌, ◌+◌, ◌≤◌, true, [], ◌++◌, length, IfOk, vec_len};
ghost use Rattle.book.specs.Meanings.{part, means_of, shown, within};

use crate::meaning::{Definition, Held, Macro, Meaning, Plain, Span};
use crate::words::Words;
use buffers::Buffer;
use std::alloc::{AllocError, Global};
use tokens::{BodyWord, ParameterWord};

// The most words of all definitions together.
pub(crate) const WORDS: usize = 16384;

// The words of a span.
fn part<T>(words: &[T], span: Span) -> &[T]
    requires { span.start + span.count ≤ length words.now }
    ensures { result.now ≡ part span words.now }
{
    let start = span.start as usize;
    &words[start..start + span.count as usize]
}

impl Words {
    pub(crate) fn new(heap: Global) -> Result<Words, AllocError>
        ensures { IfOk result (λ w. (w.parameters.held.items ≡ []) × (w.bodies.held.items ≡ [])) }
    {
        Ok(Words {
            parameters: Buffer::new(heap)?,
            bodies: Buffer::new(heap)?,
        })
    }

    // How many words are used.
    pub(crate) fn used(&self) -> usize
        ensures { result ≡ vec_len self.now.parameters.held + vec_len self.now.bodies.held }
    {
        self.parameters.held.len() + self.bodies.held.len()
    }

    // Where the words of the next definition will lie.
    pub(crate) fn next(&self, long: bool, parameters: usize, body: usize) -> Macro
        requires { vec_len self.now.parameters.held + vec_len self.now.bodies.held + (parameters + body) ≤ 16384 }
        ensures { result ≡ record { long = long; parameters = record { start = vec_len self.now.parameters.held; count = parameters }; body = record { start = vec_len self.now.bodies.held; count = body } } }
    {
        let parameters = Span {
            start: self.parameters.held.len() as u16,
            count: parameters as u16,
        };
        let body = Span {
            start: self.bodies.held.len() as u16,
            count: body as u16,
        };
        Macro {
            long,
            parameters,
            body,
        }
    }

    // Adds the words of a definition. Their memory was taken when the book was made, so neither is refused.
    pub(crate) fn add(&mut self, parameters: &[ParameterWord], body: &[BodyWord])
        requires { vec_len self.old.parameters.held + vec_len self.old.bodies.held + (length parameters.now + length body.now) ≤ 16384 }
        ensures parameters { self.new.parameters.held.items ≡ self.old.parameters.held.items ++ parameters.now }
        ensures bodies { self.new.bodies.held.items ≡ self.old.bodies.held.items ++ body.now }
    {
        let _ = self.parameters.held.extend_from_slice(parameters);
        let _ = self.bodies.held.extend_from_slice(body);
    }

    // What a held meaning says.
    pub(crate) fn meaning(&self, held: Held) -> Meaning<'_>
        requires { within (vec_len self.now.parameters.held) (vec_len self.now.bodies.held) held ≡ true }
        ensures { shown result ≡ means_of self.now.parameters.held.items self.now.bodies.held.items held }
    {
        match held {
            Held::Plain(Plain::Undefined) => Meaning::Undefined,
            Held::Plain(Plain::Primitive(primitive)) => Meaning::Primitive(primitive),
            Held::Plain(Plain::Character(category, code)) => Meaning::Character(category, code),
            Held::Macro(
                Macro {
                    long,
                    parameters,
                    body,
                },
            ) => Meaning::Macro(Definition {
                long,
                parameters: part(self.parameters.held.as_slice(), parameters),
                body: part(self.bodies.held.as_slice(), body),
            }),
        }
    }
}
