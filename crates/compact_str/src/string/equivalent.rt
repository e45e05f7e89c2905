//! Lookup by text in std's maps and sets.
//!
//! Both traits will leave std; then this file goes, and nothing else.
ghost use Rattle.std.specs.Prelude.{◌≡◌};
ghost use Rattle.std.specs.Cmp.Lexicographic.{bytes_decides, nat_list_eq_equiv, nat_list_cmp_total, slice_cmp};
ghost use Rattle.std.specs.Ordering.{nat_cmp};
ghost use Rattle.std.specs.Hash as fed;
ghost use Rattle.std.proofs.Common.{ap, ◌∙◌};
ghost use Rattle.std.specs.Str.{bytes_eq};
ghost use Rattle.compact_str.specs.Words.{utf8};
ghost use Rattle.compact_repr.proofs.ByteOrder.{utf8-same, utf8-order};
ghost use Rattle.compact_str.specs.SortedKeys.{le_lt_trans};

use crate::string::PolicyString;
use compact_repr::Policy;
use std::cmp::Ordering;
use std::collections::btree_map::Comparable;
use std::collections::hash_map::Equivalent;

impl<P: Policy> Equivalent<PolicyString<P>> for &str {
    ghost equivalent = { λ q v. bytes_eq q.now (utf8 v.text) };

    ghost respects_hash = { λ q v h. ap fed.str ((bytes_decides q.now (utf8 v.text)).0 h) };

    ghost respects_eq = { λ q x y h.
        nat_list_eq_equiv.congr q.now (utf8 x.text) (utf8 y.text) h ∙ utf8-same x.text y.text };

    /// Returns `true` if the key of a `HashMap` or `HashSet` has this text.
    #[inline]
    fn equivalent(&self, key: &PolicyString<P>) -> bool {
        *self == key.as_str()
    }
}

impl<P: Policy> Comparable<PolicyString<P>> for &str {
    ghost compare = { λ q v. slice_cmp nat_cmp q.now (utf8 v.text) };

    ghost respects_cmp = { λ q x y h.
        nat_list_cmp_total.congr q.now (utf8 x.text) (utf8 y.text) h ∙ utf8-order x.text y.text };

    ghost below_greater = { λ q x y le lt.
        le_lt_trans nat_list_cmp_total q.now (utf8 x.text) (utf8 y.text) le
        (utf8-order x.text y.text ∙ lt) };

    /// Compares this text with the key of a `BTreeMap` or `BTreeSet`.
    #[inline]
    fn compare(&self, key: &PolicyString<P>) -> Ordering {
        compare_texts(*self, key.as_str())
    }
}

fn compare_texts<'x>(a: &'x str, b: &'x str) -> Ordering
    ensures { result ≡ slice_cmp nat_cmp a.now b.now }
{
    Ord::cmp(&a, &b)
}
