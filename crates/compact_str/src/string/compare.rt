//! Comparing, by text alone.
ghost use Rattle.std.specs.Prelude.{Some};
ghost use Rattle.std.specs.Cmp as laws;
ghost use Rattle.std.specs.Cmp.{on_equiv, on_total, on_per, on_po};
ghost use Rattle.std.specs.Cmp.Lexicographic.{nat_list_eq_equiv, nat_list_cmp_total, texts_ties, texts_po};
ghost use Rattle.std.proofs.Common.{refl};
ghost use Rattle.compact_str.specs.Order.{text_in, same_text, text_cmp};

use crate::string::PolicyString;
use compact_repr::Policy;
use std::cmp::Ordering;

impl<P: Policy> PartialEq for PolicyString<P> {
    ghost eq = { same_text };

    ghost laws = { on_per text_in (laws.partial_equiv_from_equiv nat_list_eq_equiv) };

    /// Returns `true` if the texts are equal, whatever the place and capacity.
    ///
    /// # Examples
    ///
    /// ```
    /// let inline = CompactString::new(alloc, "é")?;
    /// let mut heap = CompactString::with_capacity(alloc, 100)?;
    /// heap.push('é')?;
    /// assert!(rt; inline == heap);
    /// ```
    #[inline]
    fn eq(&self, other: &Self) -> bool {
        self.repr.same_text(&other.repr)
    }
}

impl<P: Policy> Eq for PolicyString<P> {
    ghost laws = { on_equiv text_in nat_list_eq_equiv };
}

impl<P: Policy> PartialOrd for PolicyString<P> {
    ghost partial_cmp = { λ v w. Some (text_cmp v w) };

    ghost laws = { on_po text_in texts_po };

    #[inline]
    fn partial_cmp(&self, other: &Self) -> Option<Ordering> {
        Some(self.cmp(other))
    }
}

impl<P: Policy> Ord for PolicyString<P> {
    ghost cmp = { text_cmp };

    ghost total = { on_total text_in nat_list_cmp_total };

    ghost matches_partial_cmp = { λ v w. refl };

    ghost matches_eq = { λ v w. texts_ties v.text w.text };

    /// Compares the texts: the smaller character decides at the first difference, and a proper prefix comes first.
    /// Compares bytes, which order like the characters.
    ///
    /// # Examples
    ///
    /// ```
    /// let first = CompactString::new(alloc, "\u{FFFD}")?;
    /// let second = CompactString::new(alloc, "\u{10000}")?;
    /// assert!(rt; first < second);
    /// ```
    #[inline]
    fn cmp(&self, other: &Self) -> Ordering {
        self.repr.text_cmp(&other.repr)
    }
}
