//! Repeating a text.
ghost use Rattle.std.specs.Prelude.{◌≡◌, ◌<◌, ◌≤◌, ◌*◌, [], length, Some, IfOk, OnErr, IsOk};
ghost use Rattle.compact_str.specs.Words.{INLINE_CAPACITY, size, text_of, placed_text, with_capacity_placement};
ghost use Rattle.compact_str.specs.Edits.{repeated_text, IsPlacedAsRepeated, RepeatAllocates};

use crate::error::ReserveError;
use crate::string::PolicyString;
use compact_repr::Policy;

impl<P: Policy> PolicyString<P> {
    /// Returns the text repeated `count` times, in one buffer. `repeat(1)` is a clone; an empty result is inline.
    ///
    /// # Errors
    ///
    /// [`ReserveError`] if allocation fails. Never fails if the result has at most 24 bytes.
    ///
    /// # Examples
    ///
    /// ```
    /// let text = CompactString::new(alloc, "né")?;
    /// assert_eq!(rt; text.repeat(3)?.as_str(), "nénéné");
    /// ```
    #[tactic(auto, using(crate::proofs::EditFacts::repeat_facts))]
    pub fn repeat(&self, count: usize) -> Result<Self, ReserveError>
        // Repeats the text in one buffer, with capacity for it all. Once is a clone, unless empty.
        ensures text { IfOk result (λ v. v.text ≡ repeated_text count self.now.text) }
        ensures place { IfOk result (IsPlacedAsRepeated P.growth self.now count) }

        // Never fails if the result has at most 24 bytes.
        ensures succeeds { size self.now.text * count ≤ INLINE_CAPACITY → IsOk result }
        ensures allocates { OnErr result (RepeatAllocates self.now count) }
    {
        if count == 1 && !self.is_empty() {
            let repr = self.repr.try_clone()?;
            return Ok(PolicyString { repr });
        }
        let Some(total) = self.len().checked_mul(count) else {
            return Err(ReserveError);
        };
        let mut all = Self::with_capacity(self.allocator(), total)?;
        // Avoids `count` empty appends.
        if total == 0 {
            return Ok(all);
        }
        all.append_copies(self.as_str(), count);
        Ok(all)
    }

    /// Appends `piece` `count` times to an empty string with room for them all. Doubles what is there.
    fn append_copies(&mut self, piece: &str, count: usize)
        requires some { 0 < count }
        requires empty { self.old.text ≡ [] }
        requires room { with_capacity_placement P.growth (length piece.now * count)
            ≡ Some self.old.placement }
        ensures { self.new
            ≡ placed_text (repeated_text count (text_of piece.now)) self.old.placement }
    {
        match self.push_str(piece) {
            Ok(()) => {}
            Err(_) => unreachable!(),
        }
        let mut done = 1;
        while done < count {
            let more = done.min(count - done);
            match self.repr.push_within(0, piece.len() * more) {
                Ok(()) => {}
                Err(_) => unreachable!(),
            }
            done += more;
        }
    }
}
