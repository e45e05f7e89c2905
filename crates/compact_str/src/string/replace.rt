//! Replacing a range.
ghost use Rattle.std.specs.Prelude.{◌≡◌, ◌-◌, ◌<◌, ◌≤◌, length, Some, OnOk, OnErr, IsOk};
ghost use Rattle.std.specs.List.{replace_range};
ghost use Rattle.compact_str.specs.Words.{text_of, utf8, IsOwned, PlacedFor, AllocatesFor, room_to_replace, HasRoomFor};
ghost use Rattle.compact_str.specs.Ranges.{IsRange, span, range_start, range_end, len_in, replaced_in};

use crate::error::ReserveError;
use crate::string::PolicyString;
use compact_repr::Policy;
use std::ops::Bound;

impl<P: Policy> PolicyString<P> {
    /// Replaces a range of bytes, which `check_range` must accept. A static string becomes owned. Reserves the
    /// difference if the string grows.
    ///
    /// # Errors
    ///
    /// [`ReserveError`] if allocation fails. Never fails if the string is owned and the result fits in its capacity, or
    /// if both the string and the result have at most 24 bytes.
    ///
    /// # Examples
    ///
    /// ```
    /// let mut word = CompactString::new(alloc, "grün")?;
    /// word.replace_range(Included(2), Excluded(4), "ee")?;
    /// assert_eq!(rt; word.as_str(), "green");
    /// ```
    #[tactic(auto, using(crate::proofs::EditFacts::replacement_facts))]
    pub fn replace_range(
        &mut self,
        start: Bound<usize>,
        end: Bound<usize>,
        text: &str,
    ) -> Result<(), ReserveError>
        requires { IsRange self.old.text (span start end) }

        // Replaces the range with `text`. A static string becomes owned.
        ensures text { OnOk result
            (self.new.text ≡ replaced_in self.old.text (span start end) (text_of text.now)) }
        ensures bytes { OnOk result (utf8 self.new.text
            ≡ replace_range (utf8 self.old.text) (range_start start)
            (range_end self.old.text end) text.now) }
        ensures place { OnOk result
            (PlacedFor P.growth self.old self.new
            (room_to_replace (len_in self.old.text (span start end)) (length text.now))) }

        // Fails only if allocation fails, never if there is room. The string is then unchanged.
        ensures succeeds { HasRoomFor self.old
            (length text.now - len_in self.old.text (span start end)) → IsOk result }
        ensures succeeds_owned { IsOwned self.old
            → length text.now ≤ len_in self.old.text (span start end) → IsOk result }
        ensures allocates { OnErr result
            (AllocatesFor self.old
            (room_to_replace (len_in self.old.text (span start end)) (length text.now))) }
        ensures err { OnErr result (self.new ≡ self.old) }
    {
        let Some((first, last)) = self.byte_range(start, end) else {
            unreachable!();
        };
        if self.repr.try_replace_range(first, last, text) {
            return Ok(());
        }
        Ok(self.repr.replace_slow(first, last, text)?)
    }
}
