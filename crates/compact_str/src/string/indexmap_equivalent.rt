//! Lookup by text in the maps and sets of `indexmap`.
ghost use Rattle.std.specs.Cmp.Lexicographic.{bytes_decides, nat_list_eq_equiv};
ghost use Rattle.std.specs.Hash as fed;
ghost use Rattle.std.proofs.Common.{ap, ◌∙◌};
ghost use Rattle.std.specs.Str.{bytes_eq};
ghost use Rattle.compact_str.specs.Words.{utf8};
ghost use Rattle.compact_repr.proofs.ByteOrder.{utf8-same};

use crate::string::PolicyString;
use compact_repr::Policy;
use indexmap::Equivalent;

impl<P: Policy> Equivalent<PolicyString<P>> for &str {
    ghost equivalent = { λ q v. bytes_eq q.now (utf8 v.text) };

    ghost respects_hash = { λ q v h. ap fed.str ((bytes_decides q.now (utf8 v.text)).0 h) };

    ghost respects_eq = { λ q x y h.
        nat_list_eq_equiv.congr q.now (utf8 x.text) (utf8 y.text) h ∙ utf8-same x.text y.text };

    /// Returns `true` if the key has this text, as for `map.get("abc")`.
    #[inline]
    fn equivalent(&self, key: &PolicyString<P>) -> bool {
        *self == key.as_str()
    }
}
