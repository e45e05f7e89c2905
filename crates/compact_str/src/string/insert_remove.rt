//! Inserting and removing by byte position, and splitting.
ghost use Rattle.std.specs.Prelude.{◌≡◌, ℕ, ◌+◌, ◌-◌, ◌^◌, ◌<◌, ◌≤◌, ◌∷◌, [], length, take, drop, Some, None, IfOk, OnOk, OnErr, IsOk};
ghost use Rattle.std.specs.Char.{len_utf8, encode_utf8};
ghost use Rattle.std.specs.List.{insert_slice, remove_range};
ghost use Rattle.compact_str.specs.Words.{size, text_of, utf8, text_before, text_after, replaced_text, IsCut, IsBoundary, IsStatic, IsOwned, INLINE_CAPACITY, KeepsPlace, PlacedFor, AllocatesFor, owned, room, HasRoomFor, infallible_capacity};
ghost use Rattle.compact_str.specs.Edits.{IsPlacedAsTail, SplitAllocates};

use crate::error::ReserveError;
use crate::string::PolicyString;
use compact_repr::{Policy, Repr};

impl<P: Policy> PolicyString<P> {
    /// Inserts `text` at byte `index`, which must be a character boundary. Reserves first, so a static string becomes
    /// owned even if `text` is empty. Never shrinks the capacity.
    ///
    /// `index` and the end of the inserted text are boundaries afterwards.
    ///
    /// # Errors
    ///
    /// [`ReserveError`] if allocation fails. Never fails if the result fits in 24 bytes or in the capacity of an owned
    /// string.
    ///
    /// # Examples
    ///
    /// ```
    /// let mut word = CompactString::new(alloc, "né")?;
    /// word.insert_str(1, "aïv")?;
    /// assert_eq!(rt; word.as_str(), "naïvé");
    /// ```
    #[inline]
    #[tactic(auto, using(crate::proofs::EditFacts::insertion_facts))]
    pub fn insert_str(&mut self, index: usize, text: &str) -> Result<(), ReserveError>
        requires { IsBoundary self.old.text index }

        // Inserts `text` at `index`, between two boundaries. Never shrinks the capacity.
        ensures text { OnOk result
            (self.new.text ≡ replaced_text self.old.text index index (text_of text.now)) }
        ensures bytes { OnOk result
            (utf8 self.new.text ≡ insert_slice (utf8 self.old.text) index text.now) }
        ensures boundary { OnOk result (IsBoundary self.new.text index) }
        ensures after { OnOk result (IsBoundary self.new.text (index + length text.now)) }
        ensures after_fits { OnOk result (index + length text.now < 2 ^ 64) }
        ensures place { OnOk result
            (PlacedFor P.growth self.old self.new (room (length text.now))) }
        ensures room { OnOk result (infallible_capacity self.old ≤ infallible_capacity self.new) }

        // Fails only if allocation fails, never if there is room. The string is then unchanged.
        ensures succeeds { HasRoomFor self.old (length text.now) → IsOk result }
        ensures allocates { OnErr result (AllocatesFor self.old (room (length text.now))) }
        ensures err { OnErr result (self.new ≡ self.old) }
    {
        if self.repr.try_replace_range(index, index, text) {
            return Ok(());
        }
        Ok(self.repr.insert_str_slow(index, text)?)
    }

    /// Inserts a character at byte `index`, like `insert_str`. The next position is `index + character.len_utf8()`.
    ///
    /// # Errors
    ///
    /// [`ReserveError`] as from `insert_str`.
    ///
    /// # Examples
    ///
    /// ```
    /// let mut text = CompactString::new(alloc, "ab")?;
    /// text.insert(1, 'é')?;
    /// text.insert(3, '!')?;
    /// assert_eq!(rt; text.as_str(), "aé!b");
    /// ```
    #[inline(always)]
    #[tactic(auto, using(crate::proofs::EditFacts::character_insertion_facts))]
    pub fn insert(&mut self, index: usize, character: char) -> Result<(), ReserveError>
        requires { IsBoundary self.old.text index }

        // Inserts `character` at `index`, between two boundaries. Never shrinks the capacity.
        ensures text { OnOk result
            (self.new.text ≡ replaced_text self.old.text index index (character ∷ [])) }
        ensures bytes { OnOk result
            (utf8 self.new.text ≡ insert_slice (utf8 self.old.text) index (encode_utf8 character)) }
        ensures boundary { OnOk result (IsBoundary self.new.text index) }
        ensures after { OnOk result (IsBoundary self.new.text (index + len_utf8 character)) }
        ensures after_fits { OnOk result (index + len_utf8 character < 2 ^ 64) }
        ensures place { OnOk result
            (PlacedFor P.growth self.old self.new (room (len_utf8 character))) }
        ensures room { OnOk result (infallible_capacity self.old ≤ infallible_capacity self.new) }

        // Fails only if allocation fails, never if there is room. The string is then unchanged.
        ensures succeeds { HasRoomFor self.old (len_utf8 character) → IsOk result }
        ensures allocates { OnErr result (AllocatesFor self.old (room (len_utf8 character))) }
        ensures err { OnErr result (self.new ≡ self.old) }
    {
        if self.repr.try_insert(index, character) {
            return Ok(());
        }
        Ok(self.repr.insert_slow(index, character)?)
    }

    /// Removes and returns the character at byte `index`, a character boundary below the length. A static string
    /// becomes owned first.
    ///
    /// # Errors
    ///
    /// [`ReserveError`] if copying a static string of more than 24 bytes fails. Never fails for an owned string.
    ///
    /// # Examples
    ///
    /// ```
    /// let mut text = CompactString::new(alloc, "aéb")?;
    /// assert_eq!(rt; text.remove(1)?, 'é');
    /// assert_eq!(rt; text.as_str(), "ab");
    /// ```
    #[inline(always)]
    #[tactic(auto, using(crate::proofs::EditFacts::removal_facts))]
    pub fn remove(&mut self, index: usize) -> Result<char, ReserveError>
        requires boundary { IsBoundary self.old.text index }
        requires within { index < size self.old.text }

        // Removes and returns the character at `index`. A static string becomes owned.
        ensures character { IfOk result
            (λ c. text_after self.old.text index ≡ c ∷ text_after self.new.text index) }
        ensures text { IfOk result
            (λ c. self.new.text ≡ replaced_text self.old.text index (index + len_utf8 c) []) }
        ensures bytes { IfOk result (λ c. utf8 self.new.text
            ≡ remove_range (utf8 self.old.text) index (index + len_utf8 c)) }
        ensures place { OnOk result (PlacedFor P.growth self.old self.new owned) }

        // Fails only if copying a static string of over 24 bytes fails. It is then unchanged.
        ensures succeeds { IsOwned self.old → IsOk result }
        ensures succeeds_short { size self.old.text ≤ INLINE_CAPACITY → IsOk result }
        ensures allocates { OnErr result (AllocatesFor self.old owned) }
        ensures err { OnErr result (self.new ≡ self.old) }
    {
        if let Some(character) = self.repr.try_remove(index) {
            return Ok(character);
        }
        Ok(self.repr.remove_slow(index)?)
    }

    /// Splits the string at byte `index`, which must be a character boundary. Keeps `[0, index)` in its place and
    /// returns `[index, len)`. If the string is static, a result of more than 24 bytes is static too, and is not
    /// copied.
    ///
    /// # Errors
    ///
    /// [`ReserveError`] if allocation fails. Never fails for a static string or a result of at most 24 bytes.
    ///
    /// # Examples
    ///
    /// ```
    /// let mut key = CompactString::new(alloc, "clé=valeur")?;
    /// let value = key.split_off(5)?;
    /// assert_eq!(rt; key.as_str(), "clé=");
    /// assert_eq!(rt; value.as_str(), "valeur");
    /// ```
    #[tactic(auto, using(crate::proofs::EditFacts::position_facts))]
    pub fn split_off(&mut self, index: usize) -> Result<Self, ReserveError>
        requires { IsBoundary self.old.text index }

        // Returns the part from `index` on, and keeps the part before it in its place.
        ensures text { OnOk result (self.new.text ≡ text_before self.old.text index) }
        ensures bytes { OnOk result (utf8 self.new.text ≡ take index (utf8 self.old.text)) }
        ensures tail { IfOk result (λ tail. tail.text ≡ text_after self.old.text index) }
        ensures tail_bytes { IfOk result
            (λ tail. utf8 tail.text ≡ drop index (utf8 self.old.text)) }
        ensures cut { IfOk result (λ tail. IsCut self.old.text index self.new.text tail.text) }
        ensures boundaries { IsOk result → (i : ℕ) → i ≤ index → IsBoundary self.old.text i
            → IsBoundary self.new.text i }
        ensures place { OnOk result (KeepsPlace self.old self.new) }
        ensures tail_place { IfOk result (IsPlacedAsTail P.growth self.old) }

        // Fails only if copying a tail of over 24 bytes fails. The string is then unchanged.
        ensures succeeds { size self.old.text ≤ index + INLINE_CAPACITY → IsOk result }
        ensures succeeds_static { IsStatic self.old → IsOk result }
        ensures allocates { OnErr result (SplitAllocates self.old index) }
        ensures err { OnErr result (self.new ≡ self.old) }
    {
        let alloc = self.repr.allocator();
        let repr = match self.repr.static_suffix(index) {
            Some(tail) => Repr::from_static(alloc, tail),
            None => Repr::new(alloc, self.repr.suffix(index))?,
        };
        self.repr.truncate(index);
        Ok(PolicyString { repr })
    }
}
