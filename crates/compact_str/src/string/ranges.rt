//! Ranges of bytes: resolving bounds, the text in a range, and calls on Rust's ranges, such as `1..3`.
ghost use Rattle.std.specs.Prelude.{◌≡◌, ◌-◌, ◌+◌, ◌≤◌, ◌++◌, [], length, Some, IfOk, OnOk, OnErr, IsOk, ◌<◌, None, MatchOption};
ghost use Rattle.std.specs.Borrow.{sem, RestsIfErr};
ghost use Rattle.std.specs.List.{replace_range};
ghost use Rattle.std.specs.Range.Bound.{bound_map};
ghost use Rattle.compact_str.specs.Words.{utf8, size, text_of, IsOwned, INLINE_CAPACITY, PlacedFor, AllocatesFor, owned, room_to_append, room_to_replace, HasRoomFor, infallible_capacity};
ghost use Rattle.compact_str.specs.Ranges.{IsRange, span_of, range_start, range_end, part_in, len_in, replaced_in, span};

use crate::error::ReserveError;
use crate::string::PolicyString;
use crate::string::drain::Drain;
use compact_repr::Policy;
use compact_text::str_parts::is_boundary;
use std::ops::{Bound, RangeBounds};

impl<P: Policy> PolicyString<P> {
    /// Resolves a range to byte positions. Returns `None` if it is out of order or out of bounds, or if it cuts a
    /// character. `Excluded(n)` as a start and `Included(n)` as an end mean `n + 1`.
    ///
    /// After `Some((first, last))` the same bounds may be passed to `range`, `drain` and `replace_range`, and so may
    /// `Included(first), Excluded(last)`.
    ///
    /// # Examples
    ///
    /// ```
    /// let text = CompactString::new(alloc, "äb")?;
    /// assert_eq!(rt; text.check_range(Excluded(1), Unbounded), Some((2, 3)));
    /// assert_eq!(rt; text.check_range(Included(1), Unbounded), None);
    /// ```
    #[tactic(auto, using(crate::proofs::EditFacts::position_facts))]
    pub fn check_range(&self, start: Bound<usize>, end: Bound<usize>) -> Option<(usize, usize)>
        ensures { MatchOption result (¬ IsRange self.now.text (span start end))
            (λ range. IsRange self.now.text (span start end) × (range.0 ≡ range_start start)
            × (range.1 ≡ range_end self.now.text end)) }
    {
        let (first, last) = self.byte_range(start, end)?;
        let text = self.as_str();
        if first <= last && is_boundary(text, first) && is_boundary(text, last) {
            Some((first, last))
        } else {
            None
        }
    }

    /// Returns the text in a range of bytes, which `check_range` must accept.
    ///
    /// # Examples
    ///
    /// ```
    /// let field = CompactString::new(alloc, "clé=valeur")?;
    /// assert_eq!(rt; field.range(Included(5), Unbounded), "valeur");
    /// ```
    #[tactic(auto, using(crate::proofs::EditFacts::position_facts))]
    pub fn range(&self, start: Bound<usize>, end: Bound<usize>) -> &str
        requires { IsRange self.now.text (span start end) }
        ensures bytes { result.now ≡ utf8 (part_in self.now.text (span start end)) }
        ensures text { text_of result.now ≡ part_in self.now.text (span start end) }
        ensures len { length result.now ≡ len_in self.now.text (span start end) }
    {
        let Some((first, last)) = self.byte_range(start, end) else {
            unreachable!();
        };
        self.repr.substring(first, last)
    }

    /// Resolves bounds to positions, and tests no boundary. Returns `None` if `n + 1` is past the end. Reads the length
    /// only if a bound needs it.
    #[inline]
    pub(crate) fn byte_range(
        &self,
        start: Bound<usize>,
        end: Bound<usize>,
    ) -> Option<(usize, usize)>
        ensures { MatchOption result (¬ IsRange self.now.text (span start end))
            (λ range. (range.0 ≡ range_start start) × (range.1 ≡ range_end self.now.text end)) }
    {
        let first = match start {
            Bound::Included(index) => index,
            Bound::Excluded(index) => self.position_after(index)?,
            Bound::Unbounded => 0,
        };
        let last = match end {
            Bound::Included(index) => self.position_after(index)?,
            Bound::Excluded(index) => index,
            Bound::Unbounded => self.len(),
        };
        Some((first, last))
    }

    /// Returns `index + 1`, or `None` if that is past the end.
    #[inline]
    fn position_after(&self, index: usize) -> Option<usize>
        ensures { MatchOption result (size self.now.text ≤ index) (λ after. after ≡ index + 1) }
    {
        if index < self.len() {
            Some(index + 1)
        } else {
            None
        }
    }
}

impl<P: Policy> PolicyString<P> {
    ghost use Rattle.compact_str.specs.Drain.{drain_lender, drain_rest, value_after_drain};
    ghost use Rattle.compact_str.specs.contracts.string.PolicyString.{the_row};

    /// Returns the text in a range of bytes, like `range`.
    ///
    /// # Examples
    ///
    /// ```
    /// let field = CompactString::new(alloc, "clé=valeur")?;
    /// assert_eq!(rt; field.range_within(5..), "valeur");
    /// ```
    pub fn range_within<R: RangeBounds<usize>>(&self, range: R) -> &str
        requires known { R.has_bounds range }
        requires range { IsRange self.now.text (span_of R.RangeBounds range) }
        ensures bytes { result.now ≡ utf8 (part_in self.now.text (span_of R.RangeBounds range)) }
        ensures text { text_of result.now ≡ part_in self.now.text (span_of R.RangeBounds range) }
        ensures len { length result.now ≡ len_in self.now.text (span_of R.RangeBounds range) }
    {
        let (start, end) = bounds(range);
        self.range(start, end)
    }

    /// Removes a range of bytes and returns its characters as an iterator, like `drain`.
    ///
    /// # Errors
    ///
    /// [`ReserveError`] as from `drain`.
    ///
    /// # Examples
    ///
    /// ```
    /// let mut greeting = CompactString::new(alloc, "Hello, wörld!")?;
    /// drop(greeting.drain_within(5..13)?);
    /// assert_eq!(rt; greeting.as_str(), "Hello!");
    /// ```
    pub fn drain_within<R: RangeBounds<usize>>(
        &mut self,
        range: R,
    ) -> Result<Drain<'_, P>, ReserveError>
        requires known { R.has_bounds range }
        requires range { IsRange self.old.text (span_of R.RangeBounds range) }

        // Returns the characters of the range. Dropping the iterator removes the range.
        ensures same_reference { IfOk result (λ d. drain_lender d ≡ self.entry.ghost_name) }
        ensures rest { IfOk result
            (λ d. drain_rest d
            ≡ part_in self.old.text (span_of R.RangeBounds range)) }
        ensures text { IfOk result
            (λ d. (value_after_drain d).text
            ≡ replaced_in self.old.text (span_of R.RangeBounds range) []) }
        ensures place { IfOk result
            (λ d. PlacedFor P.growth self.old (value_after_drain d) owned) }

        // Fails only if copying a static string of over 24 bytes fails. It is then unchanged.
        ensures succeeds { IsOwned self.old → IsOk result }
        ensures succeeds_short { size self.old.text ≤ INLINE_CAPACITY → IsOk result }
        ensures allocates { OnErr result (AllocatesFor self.old owned) }
        ensures* err { sem 𝓛
            (RestsIfErr (the_row P.row P.Policy) self.entry drain_lender result
            (λ v. v ≡ self.old)) }
    {
        let (start, end) = bounds(range);
        self.drain(start, end)
    }

    /// Replaces a range of bytes, like `replace_range`.
    ///
    /// # Errors
    ///
    /// [`ReserveError`] as from `replace_range`.
    ///
    /// # Examples
    ///
    /// ```
    /// let mut word = CompactString::new(alloc, "grün")?;
    /// word.replace_within(2..4, "ee")?;
    /// assert_eq!(rt; word.as_str(), "green");
    /// ```
    pub fn replace_within<R: RangeBounds<usize>>(
        &mut self,
        range: R,
        text: &str,
    ) -> Result<(), ReserveError>
        requires known { R.has_bounds range }
        requires range { IsRange self.old.text (span_of R.RangeBounds range) }

        // As `replace_range`.
        ensures text { OnOk result
            (self.new.text
            ≡ replaced_in self.old.text (span_of R.RangeBounds range)
            (text_of text.now)) }
        ensures bytes { OnOk result (utf8 self.new.text
            ≡ replace_range (utf8 self.old.text) (range_start (span_of R.RangeBounds range).start)
            (range_end self.old.text (span_of R.RangeBounds range).end) text.now) }
        ensures place { OnOk result
            (PlacedFor P.growth self.old self.new
            (room_to_replace (len_in self.old.text (span_of R.RangeBounds range))
            (length text.now))) }
        ensures succeeds { HasRoomFor self.old
            (length text.now - len_in self.old.text (span_of R.RangeBounds range))
            → IsOk result }
        ensures succeeds_owned { IsOwned self.old
            → length text.now ≤ len_in self.old.text (span_of R.RangeBounds range)
            → IsOk result }
        ensures allocates { OnErr result
            (AllocatesFor self.old
            (room_to_replace (len_in self.old.text (span_of R.RangeBounds range))
            (length text.now))) }
        ensures err { OnErr result (self.new ≡ self.old) }
    {
        let (start, end) = bounds(range);
        self.replace_range(start, end, text)
    }

    /// Appends a copy of a range of bytes, like `push_str`. Copies within the buffer.
    ///
    /// # Errors
    ///
    /// [`ReserveError`] as from `push_str`.
    ///
    /// # Examples
    ///
    /// ```
    /// let mut text = CompactString::new(alloc, "né")?;
    /// text.extend_from_within(1..)?;
    /// assert_eq!(rt; text.as_str(), "néé");
    /// ```
    #[tactic(auto, using(crate::proofs::RangeAppends::within_facts))]
    pub fn extend_from_within<R: RangeBounds<usize>>(
        &mut self,
        range: R,
    ) -> Result<(), ReserveError>
        requires known { R.has_bounds range }
        requires range { IsRange self.old.text (span_of R.RangeBounds range) }

        // Appends the part. Never shrinks the capacity.
        ensures text { OnOk result
            (self.new.text ≡ self.old.text
            ++ part_in self.old.text (span_of R.RangeBounds range)) }
        ensures bytes { OnOk result
            (utf8 self.new.text ≡ utf8 self.old.text
            ++ utf8 (part_in self.old.text (span_of R.RangeBounds range))) }
        ensures place { OnOk result
            (PlacedFor P.growth self.old self.new
            (room_to_append (len_in self.old.text (span_of R.RangeBounds range)))) }
        ensures room { OnOk result (infallible_capacity self.old ≤ infallible_capacity self.new) }

        // Fails only if allocation fails, never if there is room. The string is then unchanged.
        ensures succeeds { HasRoomFor self.old
            (len_in self.old.text (span_of R.RangeBounds range)) → IsOk result }
        ensures allocates { OnErr result
            (AllocatesFor self.old
            (room_to_append (len_in self.old.text (span_of R.RangeBounds range)))) }
        ensures err { OnErr result (self.new ≡ self.old) }
    {
        let (start, end) = bounds(range);
        let Some((first, last)) = self.byte_range(start, end) else {
            unreachable!();
        };
        Ok(self.repr.push_within(first, last)?)
    }
}

fn bounds<R: RangeBounds<usize>>(range: R) -> (Bound<usize>, Bound<usize>)
    requires { R.has_bounds range }
    ensures start { result.0 ≡ R.start_bound range }
    ensures end { result.1 ≡ R.end_bound range }
{
    let start = copied(range.start_bound());
    let end = copied(range.end_bound());
    (start, end)
}

fn copied(bound: Bound<&usize>) -> Bound<usize>
    ensures { bound_map (λ x. x.now) bound.entry ≡ result }
{
    match bound {
        Bound::Included(index) => Bound::Included(*index),
        Bound::Excluded(index) => Bound::Excluded(*index),
        Bound::Unbounded => Bound::Unbounded,
    }
}
