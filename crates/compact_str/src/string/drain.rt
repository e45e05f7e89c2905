//! A draining iterator.
ghost use Rattle.std.specs.Prelude.{◌≡◌, ℕ, ◌≤◌, List, [], ◌∷◌, length, IfSome, IfOk, IsOk, OnErr, MatchOption};
ghost use Rattle.std.specs.Char.{len_utf8};
ghost use Rattle.std.specs.Borrow.{sem, RestsIfErr};
ghost use Rattle.compact_str.specs.Words.{size, utf8, text_of, IsOwned, INLINE_CAPACITY, PlacedFor, AllocatesFor, owned};
ghost use Rattle.compact_str.specs.Ranges.{IsRange, AreRangeEnds, span, part_in, replaced_in};

use crate::error::ReserveError;
use crate::string::PolicyString;
use compact_repr::Policy;
use compact_text::str_parts::{split_first, split_last, substring};
use std::fmt;
use std::fmt::{Debug, Display, Formatter, Write};
use std::iter::FusedIterator;
use std::ops::Bound;

/// A draining iterator over the characters of a range, from both ends.
///
/// Dropping it removes the whole range, even if it was not exhausted. Created by `drain`.
pub struct Drain<'a, P: Policy> {
    value: &'a mut PolicyString<P>,
    // The length of the text before the removal. The ghost fields must also hold after the drop, so they are
    // conditional on the text having this length.
    len: usize,
    // The range, in bytes.
    start: usize,
    end: usize,
    // The part not returned yet.
    front: usize,
    back: usize,
    ghost range: { size value.now.text ≡ len → AreRangeEnds value.now.text start end },
    ghost rest: { size value.now.text ≡ len → AreRangeEnds value.now.text front back },
}

impl<P: Policy> PolicyString<P> {
    ghost use Rattle.compact_str.specs.Drain.{drain_lender, drain_rest, value_after_drain};
    ghost use Rattle.compact_str.specs.contracts.string.PolicyString.{the_row};

    /// Removes a range of bytes, which `check_range` must accept, and returns its characters as an iterator. The range
    /// is removed when the iterator is dropped. A static string becomes owned first, even for an empty range.
    ///
    /// # Errors
    ///
    /// [`ReserveError`] if copying a static string of more than 24 bytes fails. Never fails for an owned string.
    ///
    /// # Examples
    ///
    /// ```
    /// let mut greeting = CompactString::new(alloc, "Hello, wörld!")?;
    /// let mut drain = greeting.drain(Included(5), Excluded(13))?;
    /// assert_eq!(rt; drain.next_back(), Some('d'));
    /// drop(drain);
    /// assert_eq!(rt; greeting.as_str(), "Hello!");
    /// ```
    #[inline]
    #[tactic(auto, using(crate::proofs::DrainLemmas::owning_drain_facts))]
    pub fn drain(
        &mut self,
        start: Bound<usize>,
        end: Bound<usize>,
    ) -> Result<Drain<'_, P>, ReserveError>
        requires { IsRange self.old.text (span start end) }

        // Returns the characters of the range. Dropping the iterator removes the range.
        ensures same_reference { IfOk result (λ d. drain_lender d ≡ self.entry.ghost_name) }
        ensures rest { IfOk result (λ d. drain_rest d ≡ part_in self.old.text (span start end)) }
        ensures text { IfOk result
            (λ d. (value_after_drain d).text ≡ replaced_in self.old.text (span start end) []) }
        ensures place { IfOk result
            (λ d. PlacedFor P.growth self.old (value_after_drain d) owned) }

        // Fails only if copying a static string of over 24 bytes fails. It is then unchanged.
        ensures succeeds { IsOwned self.old → IsOk result }
        ensures succeeds_short { size self.old.text ≤ INLINE_CAPACITY → IsOk result }
        ensures allocates { OnErr result (AllocatesFor self.old owned) }
        ensures* err { sem 𝓛
            (RestsIfErr (the_row P.row P.Policy) self.entry drain_lender result
            (λ v. v ≡ self.old)) }
    {
        let Some((start, end)) = self.byte_range(start, end) else {
            unreachable!();
        };
        self.repr.make_owned()?;
        Ok(Drain {
            len: self.len(),
            value: self,
            start,
            end,
            front: start,
            back: end,
        })
    }
}

impl<P: Policy> Drain<'_, P> {
    ghost use Rattle.compact_str.specs.Drain.{drain_rest};

    /// Returns the rest of the range as a `&str`.
    ///
    /// # Examples
    ///
    /// ```
    /// let mut word = CompactString::new(alloc, "naïve")?;
    /// let mut drain = word.drain(Included(1), Unbounded)?;
    /// assert_eq!(rt; drain.next(), Some('a'));
    /// assert_eq!(rt; drain.as_str(), "ïve");
    /// ```
    #[inline]
    #[tactic(auto, using(crate::proofs::DrainLemmas::drain_facts))]
    pub fn as_str(&self) -> &str
        ensures bytes { result.now ≡ utf8 (drain_rest self.now) }
        ensures text { text_of result.now ≡ drain_rest self.now }
        ensures len { length result.now ≡ size (drain_rest self.now) }
    {
        self.rest_of(self.value.as_str())
    }

    /// Returns the rest, given the whole text.
    #[inline(always)]
    #[tactic(auto, using(crate::proofs::DrainLemmas::drain_facts))]
    fn rest_of<'t>(&self, text: &'t str) -> &'t str
        requires { text_of text.now ≡ self.now.value.now.text }
        ensures text { text_of result.now ≡ drain_rest self.now }
        ensures len { length result.now ≡ size (drain_rest self.now) }
    {
        if text.len() == self.len {
            substring(text, self.front, self.back)
        } else {
            ""
        }
    }

    /// Returns the first character of the rest, and its width. Heap texts have a separate arm, so that a loop matches
    /// on the place once.
    #[inline(always)]
    fn first(&self) -> Option<(char, usize)>
        ensures { MatchOption result (drain_rest self.now ≡ [])
            (λ first. (first.1 ≡ len_utf8 first.0)
            × ((rest : List ℕ) × (drain_rest self.now ≡ first.0 ∷ rest))) }
    {
        let value = &*self.value;
        match value.repr.heap_str() {
            Some(text) => split_first(self.rest_of(text)),
            None => split_first(self.as_str()),
        }
    }
}

impl<P: Policy> Iterator for Drain<'_, P> {
    ghost use Rattle.std.specs.Prelude.{◌+◌, ◌/◌, Some};
    ghost use Rattle.std.specs.Iterator.{at_most, UpTo};
    ghost use Rattle.std.specs.Iterator.SizeHint.{IsWithinCount};
    ghost use Rattle.compact_str.specs.Drain.{DrainsFront, drain_rest};

    type Item = char;

    ghost next_gives = { DrainsFront };

    ghost remaining = { λ d. at_most (length (drain_rest d)) };

    #[inline(always)]
    fn next(&mut self) -> Option<char> {
        let (character, width) = self.first()?;
        self.front += width;
        Some(character)
    }

    /// Returns bounds: at least a quarter of the remaining bytes, at most all.
    #[inline]
    #[tactic(auto, using(crate::proofs::DrainLemmas::count_facts))]
    fn size_hint(&self) -> (usize, Option<usize>)
        ensures lower { IsWithinCount result.0 (at_most (length (drain_rest self.now))) }
        ensures upper { IfSome result.1 (UpTo (at_most (length (drain_rest self.now)))) }
        ensures least { result.0 ≡ (size (drain_rest self.now) + 3) / 4 }
        ensures most { result.1 ≡ Some (size (drain_rest self.now)) }
    {
        let len = self.as_str().len();
        (len.div_ceil(4), Some(len))
    }
}

impl<P: Policy> DoubleEndedIterator for Drain<'_, P> {
    ghost use Rattle.compact_str.specs.Drain.{DrainsBack};

    ghost next_back_gives = { DrainsBack };

    #[inline]
    fn next_back(&mut self) -> Option<char> {
        let (width, character) = split_last(self.as_str())?;
        self.back = self.front + width;
        Some(character)
    }
}

impl<P: Policy> FusedIterator for Drain<'_, P> {}

impl<P: Policy> Drop for Drain<'_, P> {
    ghost use Rattle.compact_str.specs.Drain.{value_after_drain};

    #[inline(always)]
    #[tactic(auto, using(crate::proofs::DrainLemmas::without_range_facts))]
    fn drop(self)
        ensures { self.exit.0.now ≡ value_after_drain self.entry }
    {
        let Drain {
            value,
            len,
            start,
            end,
            front: _,
            back: _,
        } = self;
        if value.len() == len {
            value.repr.try_remove_range(start, end);
        }
    }
}

impl<P: Policy> Display for Drain<'_, P> {
    ghost use Rattle.std.specs.Prelude.{Some};
    ghost use Rattle.compact_str.specs.Words.{utf8};
    ghost use Rattle.compact_str.specs.Drain.{drain_rest};

    ghost output = { λ d. Some (utf8 (drain_rest d)) };

    ghost styled_output = { λ d _. Some (utf8 (drain_rest d)) };

    /// Writes the remaining characters. Formatting options are ignored.
    fn fmt<W: Write>(&self, f: &mut Formatter<W>) -> fmt::Result {
        f.write_str(self.as_str())
    }
}

impl<P: Policy> Debug for Drain<'_, P> {
    /// Writes the rest of the range as `Drain("..")`.
    fn fmt<W: Write>(&self, f: &mut Formatter<W>) -> fmt::Result {
        f.debug_tuple("Drain").field(&self.as_str()).finish()
    }
}
