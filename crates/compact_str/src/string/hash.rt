//! Hashing, by text alone.
ghost use Rattle.std.proofs.Common.{rules};
ghost use Rattle.std.specs.Hash as fed;
ghost use Rattle.std.specs.Cmp.Rules.{hashing};
ghost use Rattle.compact_str.specs.Words.{utf8};

use crate::string::PolicyString;
use compact_repr::Policy;
use std::hash::{Hash, Hasher};

impl<P: Policy> Hash for PolicyString<P> {
    ghost hash_input = { λ v. fed.str (utf8 v.text) };

    ghost respects_eq = { Prim.search (hashing, rules) };

    /// Hashes like `str`, so that equal strings hash equally.
    #[inline]
    fn hash<H: Hasher>(&self, state: &mut H) {
        self.as_str().hash(state);
    }
}
