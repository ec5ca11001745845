ghost use Rattle.std.specs.Prelude.{◌≡◌, ℕ, ◌∷◌, [], ◌≤◌, length, nat_eq};
ghost use Rattle.std.specs.Cmp.{partial_equiv_from_equiv};
ghost use Rattle.std.specs.Cmp.Lexicographic.{nat_list_eq_equiv};
ghost use Rattle.std.specs.Str.{bytes_eq};
ghost use Rattle.std.proofs.Common.{ap};
ghost use Rattle.std.proofs.lemmas.Slice.Eq.{bytes_eq-Decides};

use std::hash::{Hash, Hasher};
use std::marker::Model;

/// A name of 1 to 32 bytes. It is copied, takes no memory, and two names are equal where their bytes are.
#[derive(Clone, Copy, Debug)]
pub struct Name {
    buf: [u8; 32],
    len: usize,
}

impl Model for Name {
    ghost use Rattle.std.specs.Prelude.{ℕ, ◌-◌, List, ◌++◌, length, take, replicate};
    ghost use Rattle.vc_base.specs.Name.{padded_name, IsPadded};

    ghost Value = { List ℕ };

    ghost view = { λ n. take n.len n.buf };

    ghost invariant = { λ n. IsPadded n.buf n.len };

    ghost inverse = { λ bytes. record { buf = padded_name bytes; len = length bytes } };
}

impl Name {
    /// The name of these bytes.
    pub fn new(bytes: &[u8]) -> Name
        requires least { 1 ≤ length bytes.now }
        requires most { length bytes.now ≤ 32 }
        ensures { result ≡ bytes.now }
    {
        let mut buf = [0u8; 32];
        let len = bytes.len();
        buf[..len].copy_from_slice(bytes);
        Name { buf, len }
    }

    /// Its bytes, 1 to 32 of them.
    pub fn bytes(&self) -> &[u8]
        ensures value { result.now ≡ self.now }
        ensures least { 1 ≤ length result.now }
        ensures most { length result.now ≤ 32 }
    {
        &self.buf[..self.len]
    }
}

impl PartialEq for Name {
    ghost eq = { bytes_eq };

    ghost laws = { partial_equiv_from_equiv nat_list_eq_equiv };

    fn eq(&self, other: &Self) -> bool {
        self.bytes() == other.bytes()
    }
}

impl Eq for Name {
    ghost laws = { nat_list_eq_equiv };
}

impl Hash for Name {
    ghost hash_input = { λ n. n ∷ [] };

    ghost respects_eq = { λ a b same. ap (λ n. n ∷ []) ((bytes_eq-Decides a b).0 same) };

    fn hash<H: Hasher>(&self, state: &mut H) {
        state.write(self.bytes());
    }
}
