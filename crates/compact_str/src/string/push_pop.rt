//! Appending, popping and truncating.
ghost use Rattle.std.specs.Prelude.{◌≡◌, ℕ, ◌<◌, ◌≤◌, ◌++◌, ◌∷◌, [], length, take, IsOk, IfOk, IfErr, IfNone, IfSome, OnOk, OnErr, OnSome, MatchOption};
ghost use Rattle.std.specs.Char.{len_utf8, encode_utf8};
ghost use Rattle.compact_str.specs.Words.{size, text_of, utf8, IsBoundary, text_before, KeepsPlace, PlacedFor, AllocatesFor, room_to_append, HasRoomFor, infallible_capacity};

use crate::error::ReserveError;
use crate::refused::Refused;
use crate::string::PolicyString;
use compact_repr::Policy;

impl<P: Policy> PolicyString<P> {
    /// Appends `text`. Unless it is empty, reserves as `reserve` does, so a static string is copied and becomes owned. Never
    /// shrinks the capacity.
    ///
    /// # Errors
    ///
    /// [`ReserveError`] if allocation fails. Never fails if the result fits in 24 bytes or in the capacity of an owned string.
    ///
    /// # Examples
    ///
    /// ```
    /// let mut order = CompactString::new(alloc, "caf")?;
    /// order.push_str("é noir")?;
    /// assert_eq!(rt; order.as_str(), "café noir");
    /// ```
    #[inline]
    #[tactic(auto, using(crate::proofs::EditFacts::append_facts))]
    pub fn push_str(&mut self, text: &str) -> Result<(), ReserveError>
        // Appends `text`. Never shrinks the capacity.
        ensures text { OnOk result (self.new.text ≡ self.old.text ++ text_of text.now) }
        ensures bytes { OnOk result (utf8 self.new.text ≡ utf8 self.old.text ++ text.now) }
        ensures place { OnOk result
            (PlacedFor P.growth self.old self.new (room_to_append (length text.now))) }
        ensures room { OnOk result (infallible_capacity self.old ≤ infallible_capacity self.new) }

        // Fails only if allocation fails, never if there is room. The string is then unchanged.
        ensures succeeds { HasRoomFor self.old (length text.now) → IsOk result }
        ensures allocates { OnErr result
            (AllocatesFor self.old (room_to_append (length text.now))) }
        ensures err { OnErr result (self.new ≡ self.old) }
    {
        if self.repr.try_push_str(text) {
            return Ok(());
        }
        Ok(self.repr.push_str_slow(text)?)
    }

    /// Appends a character, 1 to 4 bytes, like `push_str`.
    ///
    /// # Errors
    ///
    /// [`ReserveError`] as from `push_str`.
    ///
    /// # Examples
    ///
    /// ```
    /// let mut name = CompactString::new(alloc, "caf")?;
    /// name.push('é')?;
    /// assert_eq!(rt; name.as_str(), "café");
    /// ```
    #[inline(always)]
    #[tactic(auto, using(crate::proofs::EditFacts::character_facts))]
    pub fn push(&mut self, character: char) -> Result<(), ReserveError>
        // Appends `character`. Never shrinks the capacity.
        ensures text { OnOk result (self.new.text ≡ self.old.text ++ character ∷ []) }
        ensures bytes { OnOk result
            (utf8 self.new.text ≡ utf8 self.old.text ++ encode_utf8 character) }
        ensures place { OnOk result
            (PlacedFor P.growth self.old self.new (room_to_append (len_utf8 character))) }
        ensures room { OnOk result (infallible_capacity self.old ≤ infallible_capacity self.new) }

        // Fails only if allocation fails, never if there is room. The string is then unchanged.
        ensures succeeds { HasRoomFor self.old (len_utf8 character) → IsOk result }
        ensures allocates { OnErr result
            (AllocatesFor self.old (room_to_append (len_utf8 character))) }
        ensures err { OnErr result (self.new ≡ self.old) }
    {
        if self.repr.try_push(character) {
            return Ok(());
        }
        Ok(self.repr.push_slow(character)?)
    }

    /// Appends `text` and returns the string, like Rust's `+`.
    ///
    /// # Errors
    ///
    /// [`Refused`] with the string, unchanged, if `push_str` fails.
    ///
    /// # Examples
    ///
    /// ```
    /// let name = CompactString::new(alloc, "caf")?;
    /// let name = name.add_str("é").map_err(ReserveError::from)?;
    /// assert_eq!(rt; name.as_str(), "café");
    /// ```
    pub fn add_str(mut self, text: &str) -> Result<Self, Refused<Self>>
        // Returns the string with `text` appended. Never shrinks the capacity.
        ensures text { IfOk result (λ v. v.text ≡ self.text ++ text_of text.now) }
        ensures bytes { IfOk result (λ v. utf8 v.text ≡ utf8 self.text ++ text.now) }
        ensures place { IfOk result
            (λ v. PlacedFor P.growth self v (room_to_append (length text.now))) }
        ensures room { IfOk result (λ v. infallible_capacity self ≤ infallible_capacity v) }

        // Fails only if allocation fails, never if there is room. The error has the string.
        ensures succeeds { HasRoomFor self (length text.now) → IsOk result }
        ensures allocates { OnErr result (AllocatesFor self (room_to_append (length text.now))) }
        ensures err { IfErr result (λ e. e.value ≡ self) }
    {
        match self.push_str(text) {
            Ok(()) => Ok(self),
            Err(error) => Err(Refused { error, value: self }),
        }
    }

    /// Removes and returns the last character, or returns `None` if the string is empty.
    ///
    /// Keeps the place (inline, heap or static), and the capacity unless static. A static string gets shorter.
    ///
    /// # Examples
    ///
    /// ```
    /// let mut name = CompactString::new(alloc, "café")?;
    /// assert_eq!(rt; name.pop(), Some('é'));
    /// assert_eq!(rt; name.as_str(), "caf");
    /// ```
    #[inline]
    #[tactic(auto, using(crate::proofs::EditFacts::position_facts))]
    pub fn pop(&mut self) -> Option<char>
        // Removes and returns the last character. Leaves an empty string unchanged.
        ensures text { MatchOption result (self.old.text ≡ [])
            (λ c. self.old.text ≡ self.new.text ++ c ∷ []) }
        ensures bytes { IfSome result
            (λ c. utf8 self.old.text ≡ utf8 self.new.text ++ encode_utf8 c) }
        ensures place { OnSome result (KeepsPlace self.old self.new) }
        ensures none { IfNone result (self.new ≡ self.old) }
    {
        self.repr.pop()
    }

    /// Shortens the string to its first `len` bytes; does nothing if it has no more. A `len` below the length must be a
    /// character boundary, as `is_char_boundary` tests.
    ///
    /// Keeps the place (inline, heap or static), and the capacity unless static. The length before an append is always a
    /// boundary, and truncating to it undoes the append.
    ///
    /// # Examples
    ///
    /// ```
    /// let mut name = CompactString::new(alloc, "café")?;
    /// let len = name.len();
    /// name.push_str(" noir")?;
    /// name.truncate(len);
    /// assert_eq!(rt; name.as_str(), "café");
    /// ```
    #[inline]
    #[tactic(auto, using(crate::proofs::EditFacts::position_facts))]
    pub fn truncate(&mut self, len: usize)
        requires { len < size self.old.text → IsBoundary self.old.text len }
        ensures text { self.new.text ≡ text_before self.old.text len }
        ensures bytes { utf8 self.new.text ≡ take len (utf8 self.old.text) }
        ensures place { KeepsPlace self.old self.new }

        // Boundaries up to `len` remain boundaries.
        ensures boundaries { (i : ℕ) → i ≤ len → IsBoundary self.old.text i
            → IsBoundary self.new.text i }
    {
        self.repr.truncate(len);
    }

    /// Removes the text. Keeps the place, and the capacity of an owned string; that of a static one becomes 0.
    ///
    /// # Examples
    ///
    /// ```
    /// let mut line = CompactString::with_capacity(alloc, 100)?;
    /// line.push('é')?;
    /// line.clear();
    /// assert!(rt; line.is_empty());
    /// assert_eq!(rt; line.capacity(), 100);
    /// ```
    #[inline]
    pub fn clear(&mut self)
        ensures text { self.new.text ≡ [] }
        ensures bytes { utf8 self.new.text ≡ [] }
        ensures place { KeepsPlace self.old self.new }
    {
        self.repr.clear();
    }
}
