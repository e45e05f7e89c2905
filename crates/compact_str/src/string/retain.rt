//! Removing characters by a predicate.
ghost use Rattle.std.specs.Prelude.{◌≡◌, ◌≤◌, ℕ, Bool, OnOk, OnErr, IsOk, filter};
ghost use Rattle.compact_str.specs.Words.{size, IsOwned, INLINE_CAPACITY, PlacedFor, AllocatesFor, owned};
ghost use Rattle.compact_repr.specs.Retain.{RetainsCharsTo};
ghost use Rattle.compact_str.specs.RetainRules.{RetainsChars, AgreesWith};

use crate::error::ReserveError;
use crate::string::PolicyString;
use compact_repr::Policy;

impl<P: Policy> PolicyString<P> {
    /// Retains only the characters for which `keep`, called once for each in order, returns `true`. A static string
    /// becomes owned first, even if all are kept.
    ///
    /// If `keep` always returns the same for a character, the clause `filter` states the result.
    ///
    /// # Errors
    ///
    /// [`ReserveError`] if copying a static string of more than 24 bytes fails; `keep` is then not called. Never fails
    /// for an owned string.
    ///
    /// # Examples
    ///
    /// ```
    /// let mut word = CompactString::new(alloc, "c-a-f-é")?;
    /// word.retain(|character| character != '-')?;
    /// assert_eq!(rt; word.as_str(), "café");
    /// ```
    #[inline]
    pub fn retain<F: FnMut(char) -> bool>(&mut self, mut keep: F) -> Result<(), ReserveError>
        requires { F.IsAlwaysCallable keep }

        // Keeps the characters for which `keep` returns `true`. A static string becomes owned.
        ensures text { OnOk result (RetainsChars F.FnMut keep self.old.text self.new.text) }
        ensures filter { (says : ℕ → Bool) → AgreesWith F.FnMut says
            → OnOk result (self.new.text ≡ filter says self.old.text) }
        ensures place { OnOk result (PlacedFor P.growth self.old self.new owned) }

        // Fails only if copying a static string of over 24 bytes fails. It is then unchanged.
        ensures succeeds { IsOwned self.old → IsOk result }
        ensures succeeds_short { size self.old.text ≤ INLINE_CAPACITY → IsOk result }
        ensures allocates { OnErr result (AllocatesFor self.old owned) }
        ensures err { OnErr result (self.new ≡ self.old) }
    {
        self.retain_by(&mut keep)
    }

    /// Like `retain`, with a borrowed closure whose final state is specified.
    ///
    /// # Errors
    ///
    /// [`ReserveError`] as from `retain`.
    ///
    /// # Examples
    ///
    /// ```
    /// let mut word = CompactString::new(alloc, "naïve")?;
    /// let mut removed = 0;
    /// let mut keep = |character: char| {
    ///     if !character.is_ascii() {
    ///         removed += 1;
    ///     }
    ///     character.is_ascii()
    /// };
    /// word.retain_by(&mut keep)?;
    /// assert_eq!(rt; word.as_str(), "nave");
    /// assert_eq!(rt; removed, 1);
    /// ```
    #[inline]
    pub fn retain_by<F: FnMut(char) -> bool>(&mut self, keep: &mut F) -> Result<(), ReserveError>
        requires { F.IsAlwaysCallable keep.old }

        // Keeps the characters for which `keep` returns `true`. A static string becomes owned.
        ensures text { OnOk result
            (RetainsCharsTo F.FnMut keep.old self.old.text self.new.text keep.new) }
        ensures filter { (says : ℕ → Bool) → AgreesWith F.FnMut says
            → OnOk result (self.new.text ≡ filter says self.old.text) }
        ensures place { OnOk result (PlacedFor P.growth self.old self.new owned) }
        ensures callable { F.IsAlwaysCallable keep.new }

        // Fails only if copying a static string of over 24 bytes fails. It is then unchanged.
        ensures succeeds { IsOwned self.old → IsOk result }
        ensures succeeds_short { size self.old.text ≤ INLINE_CAPACITY → IsOk result }
        ensures allocates { OnErr result (AllocatesFor self.old owned) }
        ensures unasked { OnErr result (keep.new ≡ keep.old) }
        ensures err { OnErr result (self.new ≡ self.old) }
    {
        self.repr.make_owned()?;
        self.repr.retain(keep);
        Ok(())
    }
}
