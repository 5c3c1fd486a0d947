ghost use Rattle.std.specs.Prelude.{◌≡◌, ◌≤◌, [], ◌∷◌, length};
ghost use Rattle.std.specs.Cmp.Lexicographic.{bytes_decides, nat_list_eq_equiv};
ghost use Rattle.std.specs.Str.{bytes_eq};
ghost use Rattle.std.proofs.Common.{ap};

use arrayvec::ArrayVec;
use indexmap::Equivalent;
use std::hash::{Hash, Hasher};

// The most bytes of a spelling.
pub(crate) const SPELLING_LIMIT: usize = 32;

// The bytes of a name. They are hashed in one write, which takes fewer steps than one for each byte, as a derive has it.
#[derive(Debug, PartialEq, Eq, Drop)]
pub(crate) struct Spelling {
    pub(crate) bytes: ArrayVec<u8, SPELLING_LIMIT>,
    ghost short: { length bytes.items ≤ 32 },
}

impl Spelling {
    ghost use Rattle.names.specs.Entries.{spelled};

    pub(crate) fn of(bytes: &[u8]) -> Spelling
        requires { length bytes.now ≤ 32 }
        ensures { spelled result ≡ bytes.now }
    {
        Spelling {
            bytes: ArrayVec::try_from(bytes).unwrap(),
        }
    }
}

impl Hash for Spelling {
    ghost use Rattle.names.specs.Entries.{spelled};

    ghost hash_input = { λ s. spelled s ∷ [] };

    ghost respects_eq = { λ s t h. ap (λ l. l ∷ []) ((bytes_decides (spelled s) (spelled t)).0 h) };

    fn hash<H: Hasher>(&self, state: &mut H) {
        state.write(self.bytes.as_slice());
    }
}

// The bytes by which a spelling is sought.
#[derive(Clone, Copy, Debug, PartialEq, Eq)]
pub(crate) struct Sought<'a>(pub(crate) &'a [u8]);

impl Hash for Sought<'_> {
    ghost hash_input = { λ s. s.0.now ∷ [] };

    ghost respects_eq = { λ s t h. ap (λ l. l ∷ []) ((bytes_decides s.0.now t.0.now).0 h) };

    fn hash<H: Hasher>(&self, state: &mut H) {
        state.write(self.0);
    }
}

impl Equivalent<Spelling> for Sought<'_> {
    ghost use Rattle.names.specs.Entries.{spelled};

    ghost equivalent = { λ s t. bytes_eq s.0.now (spelled t) };

    ghost respects_hash = { λ s t h. ap (λ l. l ∷ []) ((bytes_decides s.0.now (spelled t)).0 h) };

    ghost respects_eq = { λ s t u. nat_list_eq_equiv.congr s.0.now (spelled t) (spelled u) };

    fn equivalent(&self, spelling: &Spelling) -> bool {
        self.0 == spelling.bytes.as_slice()
    }
}
