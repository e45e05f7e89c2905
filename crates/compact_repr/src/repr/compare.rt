//! Comparison of two texts.
#![tactic(auto, using(crate::proofs::ByteOrder::order_facts))]

ghost use Rattle.std.specs.Prelude.{◌≡◌, nat_eq};
ghost use Rattle.std.specs.Cmp.Lexicographic.{pointwise, slice_cmp};
ghost use Rattle.std.specs.Ordering.{nat_cmp};

use crate::growth::Policy;
use crate::repr::{Buffer, Repr};
use std::cmp::Ordering;

impl<P: Policy> Repr<P> {
    /// Returns `true` if the texts are equal, wherever they are stored.
    #[inline]
    pub fn same_text(&self, other: &Self) -> bool
        ensures { result ≡ pointwise nat_eq self.now.text other.now.text }
    {
        if let (Buffer::Inline(_, text), Buffer::Inline(_, other)) = (&self.buffer, &other.buffer) {
            return text.same_text(other);
        }
        self.as_str() == other.as_str()
    }

    /// Compares the texts, wherever they are stored.
    #[inline]
    pub fn text_cmp(&self, other: &Self) -> Ordering
        ensures { result ≡ slice_cmp nat_cmp self.now.text other.now.text }
    {
        if let (Buffer::Inline(_, text), Buffer::Inline(_, other)) = (&self.buffer, &other.buffer) {
            return text.text_cmp(other);
        }
        byte_order(self.as_str(), other.as_str())
    }
}

/// Compares two texts by their bytes.
///
/// Compares by the first bytes if they differ, without a branch on the lengths. Not inlined, so that none is made of
/// the two bytes.
#[inline(never)]
fn byte_order(text: &str, other: &str) -> Ordering
    ensures { result ≡ slice_cmp nat_cmp text.now other.now }
{
    let (bytes, others) = (text.as_bytes(), other.as_bytes());
    if !bytes.is_empty() && !others.is_empty() && bytes[0] != others[0] {
        return bytes[0].cmp(&others[0]);
    }
    text.cmp(other)
}
