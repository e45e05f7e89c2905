//! Creating strings.
ghost use Rattle.std.specs.Prelude.{◌≡◌, ◌<◌, ◌≤◌, ℕ, List, [], length, IfOk, OnErr, IsOk, MatchOption};
ghost use Rattle.compact_str.specs.Words.{text_of, utf8, placed_text, inline_placement, const_new_placement, INLINE_CAPACITY, IsPlacedAsNew, HasNewCapacity, HasRoomFor};
ghost use Rattle.compact_repr.specs.Packed.{IsPackedFor};
ghost use Rattle.compact_str.specs.Conversions.{CopiesText};

use crate::error::ReserveError;
use crate::string::PolicyString;
use compact_repr::{Policy, Repr};
use std::alloc::Global;

impl<P: Policy> PolicyString<P> {
    /// Creates a string from `text`: inline up to 24 bytes, else in a heap buffer of its length, or of 32 if that is more.
    ///
    /// # Errors
    ///
    /// [`ReserveError`] if the heap buffer cannot be allocated. Never fails for at most 24 bytes.
    ///
    /// # Examples
    ///
    /// ```
    /// let inline = CompactString::new(alloc, "exactly twenty-four byte")?;
    /// assert_eq!(rt; inline.len(), 24);
    /// assert!(rt; !inline.is_heap_allocated());
    ///
    /// let heap = CompactString::new(alloc, "exactly twenty-five bytes")?;
    /// assert!(rt; heap.is_heap_allocated());
    /// assert_eq!(rt; heap.capacity(), 32);
    /// ```
    #[inline]
    pub fn new(alloc: Global, text: &str) -> Result<Self, ReserveError>
        // Inline up to 24 bytes, else on the heap, with at least the policy's minimum capacity.
        ensures text { IfOk result (λ v. v.text ≡ text_of text.now) }
        ensures bytes { IfOk result (λ v. utf8 v.text ≡ text.now) }
        ensures place { IfOk result (IsPlacedAsNew P.growth) }

        // Never fails up to 24 bytes.
        ensures succeeds { length text.now ≤ INLINE_CAPACITY → IsOk result }
        ensures allocates { OnErr result (INLINE_CAPACITY < length text.now) }
    {
        let repr = Repr::new(alloc, text)?;
        Ok(PolicyString { repr })
    }

    /// Same as `new`.
    ///
    /// # Errors
    ///
    /// [`ReserveError`] as from `new`.
    ///
    /// # Examples
    ///
    /// See [`new`].
    #[inline]
    pub fn try_new(alloc: Global, text: &str) -> Result<Self, ReserveError>
        // As `new`.
        ensures { CopiesText P.growth text.now result }
    {
        Self::new(alloc, text)
    }

    /// Same as `new`. Not the trait `FromStr`, which takes no allocator.
    ///
    /// # Errors
    ///
    /// [`ReserveError`] as from `new`.
    ///
    /// # Examples
    ///
    /// See [`new`].
    #[inline]
    pub fn from_str(alloc: Global, s: &str) -> Result<Self, ReserveError>
        // As `new`.
        ensures { CopiesText P.growth s.now result }
    {
        Self::new(alloc, s)
    }

    /// Creates a string from a literal without allocating: inline up to 24 bytes, otherwise by reference.
    ///
    /// # Examples
    ///
    /// ```
    /// let month = CompactString::const_new(alloc, "März");
    /// assert!(rt; month.as_static_str().is_none());
    ///
    /// let digits = CompactString::const_new(alloc, "0123456789abcdefghijklmno");
    /// assert_eq!(rt; digits.as_static_str(), Some("0123456789abcdefghijklmno"));
    /// assert_eq!(rt; digits.capacity(), 25);
    /// ```
    #[inline]
    pub fn const_new(alloc: Global, text: &'static str) -> Self
        ensures value { let t = text_of text.now in result ≡ placed_text t (const_new_placement t) }
        ensures bytes { utf8 result.text ≡ text.now }
    {
        PolicyString {
            repr: Repr::from_static(alloc, text),
        }
    }

    /// Creates an inline string from the 24 bytes that `packed` returns, without allocating.
    ///
    /// A last byte of 192 + n means n bytes of text; at most 191, it is the last of 24. Returns `None` if it is above
    /// 215 or the text is not valid UTF-8. Ignores the bytes between.
    ///
    /// # Examples
    ///
    /// ```
    /// let mut bytes = [0u8; 24];
    /// bytes[0] = b'x';
    /// bytes[23] = 192 + 1;
    /// let name = CompactString::from_packed(alloc, &bytes);
    /// assert_eq!(rt; name.as_deref(), Some("x"));
    ///
    /// bytes[23] = 216;
    /// assert!(rt; CompactString::from_packed(alloc, &bytes).is_none());
    /// ```
    #[inline]
    pub fn from_packed(alloc: Global, bytes: &[u8; 24]) -> Option<Self>
        ensures value { MatchOption result ((t : List ℕ) → ¬ (IsPackedFor bytes.now t))
            (λ v. IsPackedFor bytes.now v.text × (v.placement ≡ inline_placement)) }
    {
        let repr = Repr::from_packed(alloc, bytes)?;
        Some(PolicyString { repr })
    }

    /// Creates an empty string with room for `capacity` bytes: inline up to 24, else in a heap buffer of `capacity` bytes,
    /// or of 32 if that is more.
    ///
    /// # Errors
    ///
    /// [`ReserveError`] if the heap buffer cannot be allocated. Never fails for at most 24 bytes.
    ///
    /// # Examples
    ///
    /// ```
    /// let mut line = CompactString::with_capacity(alloc, 30)?;
    /// assert_eq!(rt; line.capacity(), 32);
    ///
    /// line.push_str("thirty-two bytes, all allocated.")?;
    /// assert_eq!(rt; line.capacity(), 32);
    /// ```
    pub fn with_capacity(alloc: Global, capacity: usize) -> Result<Self, ReserveError>
        // Inline up to 24 bytes, else on the heap, with at least the policy's minimum capacity.
        ensures text { IfOk result (λ v. v.text ≡ []) }
        ensures place { IfOk result (HasNewCapacity P.growth capacity) }
        ensures room { IfOk result (λ v. HasRoomFor v capacity) }

        // Never fails up to 24 bytes.
        ensures succeeds { capacity ≤ INLINE_CAPACITY → IsOk result }
        ensures allocates { OnErr result (INLINE_CAPACITY < capacity) }
    {
        let repr = Repr::with_capacity(alloc, capacity)?;
        Ok(PolicyString { repr })
    }

    /// Same as `with_capacity`.
    ///
    /// # Errors
    ///
    /// [`ReserveError`] as from `with_capacity`.
    ///
    /// # Examples
    ///
    /// See [`with_capacity`].
    pub fn try_with_capacity(alloc: Global, capacity: usize) -> Result<Self, ReserveError>
        // As `with_capacity`.
        ensures text { IfOk result (λ v. v.text ≡ []) }
        ensures place { IfOk result (HasNewCapacity P.growth capacity) }
        ensures room { IfOk result (λ v. HasRoomFor v capacity) }
        ensures succeeds { capacity ≤ INLINE_CAPACITY → IsOk result }
        ensures allocates { OnErr result (INLINE_CAPACITY < capacity) }
    {
        Self::with_capacity(alloc, capacity)
    }
}
