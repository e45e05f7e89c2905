//! Reserving and shrinking.
ghost use Rattle.std.specs.Prelude.{◌≡◌, OnOk, OnErr, IsOk};
ghost use Rattle.compact_str.specs.Words.{Shrinks, PlacedFor, AllocatesFor, room, HasRoomFor};

use crate::error::ReserveError;
use crate::string::PolicyString;
use compact_repr::Policy;

impl<P: Policy> PolicyString<P> {
    /// Reserves room for `additional` more bytes. Does nothing if an owned string has it.
    ///
    /// Otherwise moves the text inline if all fits in 24 bytes, else to a heap buffer of the bytes needed, 1.5 times
    /// the length, or 32, whichever is most.
    ///
    /// # Errors
    ///
    /// [`ReserveError`] if the heap buffer cannot be allocated.
    ///
    /// # Examples
    ///
    /// ```
    /// let mut line = CompactString::new(alloc, "é")?;
    /// line.reserve(100)?;
    /// assert_eq!(rt; line.capacity(), 102);
    /// ```
    #[inline]
    pub fn reserve(&mut self, additional: usize) -> Result<(), ReserveError>
        // Keeps the text, and makes room for `additional` more bytes.
        ensures text { self.new.text ≡ self.old.text }
        ensures place { OnOk result (PlacedFor P.growth self.old self.new (room additional)) }
        ensures room { OnOk result (HasRoomFor self.new additional) }

        // Fails only if allocation fails, never if there is room. The string is then unchanged.
        ensures succeeds { HasRoomFor self.old additional → IsOk result }
        ensures allocates { OnErr result (AllocatesFor self.old (room additional)) }
        ensures err { OnErr result (self.new ≡ self.old) }
    {
        Ok(self.repr.reserve(additional)?)
    }

    /// Same as `reserve`.
    ///
    /// # Errors
    ///
    /// [`ReserveError`] as from `reserve`.
    ///
    /// # Examples
    ///
    /// See [`reserve`].
    #[inline]
    pub fn try_reserve(&mut self, additional: usize) -> Result<(), ReserveError>
        // As `reserve`.
        ensures text { self.new.text ≡ self.old.text }
        ensures place { OnOk result (PlacedFor P.growth self.old self.new (room additional)) }
        ensures room { OnOk result (HasRoomFor self.new additional) }
        ensures succeeds { HasRoomFor self.old additional → IsOk result }
        ensures allocates { OnErr result (AllocatesFor self.old (room additional)) }
        ensures err { OnErr result (self.new ≡ self.old) }
    {
        self.reserve(additional)
    }

    /// Shrinks the capacity of a heap string to at least its length and `min_capacity`.
    ///
    /// Moves the text inline if 24 bytes suffice, else to a smaller buffer of at least 32. Does nothing if that cannot
    /// be allocated. An inline or static string stays unchanged.
    ///
    /// # Examples
    ///
    /// ```
    /// let mut line = CompactString::with_capacity(alloc, 100)?;
    /// line.push_str("some text of exactly 30 bytès")?;
    /// line.shrink_to(40);
    /// assert_eq!(rt; line.capacity(), 40);
    /// ```
    pub fn shrink_to(&mut self, min_capacity: usize)
        ensures shrinks { Shrinks P.growth self.old min_capacity self.new }
        ensures text { self.new.text ≡ self.old.text }
    {
        self.repr.shrink_to(min_capacity);
    }

    /// Shrinks the capacity of a heap string to its length, as `shrink_to(0)`.
    ///
    /// # Examples
    ///
    /// ```
    /// let mut line = CompactString::with_capacity(alloc, 100)?;
    /// line.push_str("exactly twenty-four byte")?;
    /// line.shrink_to_fit();
    /// assert!(rt; !line.is_heap_allocated());
    /// ```
    pub fn shrink_to_fit(&mut self)
        ensures shrinks { Shrinks P.growth self.old 0 self.new }
        ensures text { self.new.text ≡ self.old.text }
    {
        self.repr.shrink_to(0);
    }
}
