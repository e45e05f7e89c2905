//! Comparison of two short texts.
ghost use Rattle.std.specs.Prelude.{◌≡◌, nat_eq};
ghost use Rattle.std.specs.Cmp.Lexicographic.{pointwise, slice_cmp};
ghost use Rattle.std.specs.Ordering.{nat_cmp};

use crate::inline::{INLINE_CAPACITY, InlineBuffer};
use compact_text::words::{last_byte, same_array};
use std::cmp::Ordering;

/// The last byte of the packed empty text.
const EMPTY: u8 = 192;

impl InlineBuffer {
    /// Returns `true` if the texts are equal. If the last bytes differ, so do the texts; if all three words are equal, so are
    /// they. Otherwise compares the texts, since padding is unspecified.
    #[inline]
    #[tactic(auto, using(crate::proofs::ByteOrder::order_facts))]
    pub fn same_text(&self, other: &Self) -> bool
        ensures { result ≡ pointwise nat_eq self.now other.now }
    {
        if last_byte(&self.bytes) != last_byte(&other.bytes) {
            return false;
        }
        same_array(&self.bytes, &other.bytes) || self.as_str() == other.as_str()
    }

    /// Compares the texts, by their first bytes alone if these differ and neither text is empty. Not inlined, so that
    /// no branch is made of the two bytes.
    #[inline(never)]
    #[tactic(auto, using(crate::proofs::ByteOrder::order_facts, crate::proofs::PackedOrder::order_packed))]
    pub fn text_cmp(&self, other: &Self) -> Ordering
        ensures { result ≡ slice_cmp nat_cmp self.now other.now }
    {
        let (first, others) = (self.bytes[0], other.bytes[0]);
        let (last, other_last) = (
            self.bytes[INLINE_CAPACITY - 1],
            other.bytes[INLINE_CAPACITY - 1],
        );
        if last != EMPTY && other_last != EMPTY && first != others {
            return first.cmp(&others);
        }
        self.as_str().cmp(other.as_str())
    }
}
