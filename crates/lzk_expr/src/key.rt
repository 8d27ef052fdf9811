//! Names as keys of a table. They are short: a byte at a time and one write are faster than what serves slices of any
//! length.

ghost use Rattle.std.specs.Prelude.{◌≡◌, [], ◌∷◌, bytes_eq};
ghost use Rattle.std.specs.Cmp.{partial_equiv_from_equiv};
ghost use Rattle.std.specs.Cmp.Lexicographic.{nat_list_eq_equiv};
ghost use Rattle.lzk_expr.specs.Keys.{same_writes};

use std::hash::{Hash, Hasher};
use std::marker::Model;

#[derive(Drop)]
pub(crate) struct Key<'a> {
    bytes: &'a [u8],
}

impl<'a> Model for Key<'a> {
    ghost use Rattle.std.specs.Prelude.{List, ℕ};

    ghost Value = { List ℕ };

    ghost view = { λ k. k.bytes.now };
}

impl<'a> Key<'a> {
    pub fn new(bytes: &'a [u8]) -> Key<'a>
        ensures { result ≡ bytes.now }
    {
        Key { bytes }
    }
}

#[tactic(auto, using(crate::proofs::Alike::unlike_length, crate::proofs::Alike::unlike_place, crate::proofs::Alike::alike_more, crate::proofs::Alike::alike))]
pub(crate) fn are_same(v: &[u8], w: &[u8]) -> bool
    ensures { result ≡ bytes_eq v.now w.now }
{
    if v.len() != w.len() {
        return false;
    }
    for i in 0..v.len() {
        if v[i] != w[i] {
            return false;
        }
    }
    true
}

impl<'a> PartialEq for Key<'a> {
    ghost eq = { bytes_eq };

    ghost laws = { partial_equiv_from_equiv nat_list_eq_equiv };

    fn eq(&self, other: &Key<'a>) -> bool {
        are_same(self.bytes, other.bytes)
    }
}

impl<'a> Eq for Key<'a> {
    ghost laws = { nat_list_eq_equiv };
}

impl<'a> Hash for Key<'a> {
    ghost hash_input = { λ w. w ∷ [] };

    ghost respects_eq = { same_writes };

    fn hash<H: Hasher>(&self, state: &mut H) {
        state.write(self.bytes);
    }
}
