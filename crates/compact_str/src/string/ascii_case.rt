//! ASCII case.
#![tactic(auto, using(crate::proofs::EditFacts::case_facts))]

ghost use Rattle.std.specs.Prelude.{◌≡◌, ℕ, ◌<◌, ◌≤◌, IfOk, OnOk, OnErr, IsOk};
ghost use Rattle.compact_str.specs.Words.{size, ascii_lowercase, ascii_uppercase, IsBoundary, IsOwned, INLINE_CAPACITY, IsPlacedAsNew, PlacedFor, AllocatesFor, owned};

use crate::error::ReserveError;
use crate::string::PolicyString;
use compact_repr::Policy;
use compact_text::slices::Case;

impl<P: Policy> PolicyString<P> {
    /// Converts A to Z to lower case in place. Other characters and all boundaries stay. A static string becomes owned
    /// first, even if no character changes.
    ///
    /// # Errors
    ///
    /// [`ReserveError`] if copying a static string of more than 24 bytes fails. Never fails for an owned string.
    ///
    /// # Examples
    ///
    /// ```
    /// let mut word = CompactString::new(alloc, "ABCÄ")?;
    /// word.make_ascii_lowercase()?;
    /// assert_eq!(rt; word.as_str(), "abcÄ");
    /// ```
    pub fn make_ascii_lowercase(&mut self) -> Result<(), ReserveError>
        // Makes A to Z lowercase. A static string becomes owned, and an owned one keeps its capacity.
        ensures text { OnOk result (self.new.text ≡ ascii_lowercase self.old.text) }
        ensures boundaries { (i : ℕ) → IsBoundary self.old.text i → IsBoundary self.new.text i }
        ensures place { OnOk result (PlacedFor P.growth self.old self.new owned) }

        // Fails only if copying a static string of over 24 bytes fails. It is then unchanged.
        ensures succeeds { IsOwned self.old → IsOk result }
        ensures succeeds_short { size self.old.text ≤ INLINE_CAPACITY → IsOk result }
        ensures allocates { OnErr result (AllocatesFor self.old owned) }
        ensures err { OnErr result (self.new ≡ self.old) }
    {
        self.repr.make_owned()?;
        self.repr.convert_case(Case::Lower);
        Ok(())
    }

    /// Converts a to z to upper case in place, like `make_ascii_lowercase`.
    ///
    /// # Errors
    ///
    /// [`ReserveError`] as from `make_ascii_lowercase`.
    ///
    /// # Examples
    ///
    /// ```
    /// let mut word = CompactString::new(alloc, "abcä")?;
    /// word.make_ascii_uppercase()?;
    /// assert_eq!(rt; word.as_str(), "ABCä");
    /// ```
    pub fn make_ascii_uppercase(&mut self) -> Result<(), ReserveError>
        // Makes a to z uppercase. A static string becomes owned, and an owned one keeps its capacity.
        ensures text { OnOk result (self.new.text ≡ ascii_uppercase self.old.text) }
        ensures boundaries { (i : ℕ) → IsBoundary self.old.text i → IsBoundary self.new.text i }
        ensures place { OnOk result (PlacedFor P.growth self.old self.new owned) }

        // Fails only if copying a static string of over 24 bytes fails. It is then unchanged.
        ensures succeeds { IsOwned self.old → IsOk result }
        ensures succeeds_short { size self.old.text ≤ INLINE_CAPACITY → IsOk result }
        ensures allocates { OnErr result (AllocatesFor self.old owned) }
        ensures err { OnErr result (self.new ≡ self.old) }
    {
        self.repr.make_owned()?;
        self.repr.convert_case(Case::Upper);
        Ok(())
    }

    /// Returns a copy with A to Z in lower case, placed as by `new`.
    ///
    /// # Errors
    ///
    /// [`ReserveError`] if `new` fails. Never fails up to 24 bytes.
    ///
    /// # Examples
    ///
    /// ```
    /// let word = CompactString::new(alloc, "ABCÄ")?;
    /// assert_eq!(rt; word.to_ascii_lowercase()?.as_str(), "abcÄ");
    /// ```
    pub fn to_ascii_lowercase(&self) -> Result<Self, ReserveError>
        ensures text { IfOk result (λ v. v.text ≡ ascii_lowercase self.now.text) }
        ensures place { IfOk result (IsPlacedAsNew P.growth) }

        // Never fails up to 24 bytes.
        ensures succeeds { size self.now.text ≤ INLINE_CAPACITY → IsOk result }
        ensures allocates { OnErr result (INLINE_CAPACITY < size self.now.text) }
    {
        let mut copy = Self::new(self.allocator(), self.as_str())?;
        copy.repr.convert_case(Case::Lower);
        Ok(copy)
    }

    /// Returns a copy with a to z in upper case, placed as by `new`.
    ///
    /// # Errors
    ///
    /// [`ReserveError`] if `new` fails. Never fails up to 24 bytes.
    ///
    /// # Examples
    ///
    /// ```
    /// let word = CompactString::new(alloc, "abcä")?;
    /// assert_eq!(rt; word.to_ascii_uppercase()?.as_str(), "ABCä");
    /// ```
    pub fn to_ascii_uppercase(&self) -> Result<Self, ReserveError>
        ensures text { IfOk result (λ v. v.text ≡ ascii_uppercase self.now.text) }
        ensures place { IfOk result (IsPlacedAsNew P.growth) }

        // Never fails up to 24 bytes.
        ensures succeeds { size self.now.text ≤ INLINE_CAPACITY → IsOk result }
        ensures allocates { OnErr result (INLINE_CAPACITY < size self.now.text) }
    {
        let mut copy = Self::new(self.allocator(), self.as_str())?;
        copy.repr.convert_case(Case::Upper);
        Ok(copy)
    }
}
