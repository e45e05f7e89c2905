//! Reading the text, its place and its capacity.
ghost use Rattle.std.specs.Prelude.{◌≡◌, ℕ, ◌<◌, ◌^◌, ◌↔◌, [], length, IsTrue, IsSome, IfSome};
ghost use Rattle.std.specs.Str.{IsCharBoundary, IsUtf8};
ghost use Rattle.std.specs.Bool.{OnTrue};
ghost use Rattle.compact_str.specs.Words.{size, utf8, text_of, IsBoundary, inline, is_heap_place, IsSound, IsStatic, IsInline};
ghost use Rattle.compact_repr.specs.Packed.{IsPackedFor};

use crate::string::PolicyString;
use compact_repr::Policy;
use std::alloc::Global;

impl<P: Policy> PolicyString<P> {
    /// Returns the allocator.
    ///
    /// # Examples
    ///
    /// ```
    /// let name = CompactString::new(alloc, "Zoë")?;
    /// let greeting = CompactString::new(name.allocator(), "Salut")?;
    /// assert_eq!(rt; greeting.as_str(), "Salut");
    /// ```
    #[inline]
    pub fn allocator(&self) -> Global {
        self.repr.allocator()
    }

    /// Returns the text. Positions returned by `find` and others are boundaries of the string.
    ///
    /// # Examples
    ///
    /// ```
    /// let name = CompactString::new(alloc, "café")?;
    /// assert_eq!(rt; name.as_str(), "café");
    /// ```
    #[inline]
    pub fn as_str(&self) -> &str
        ensures bytes { result.now ≡ utf8 self.now.text }
        ensures text { text_of result.now ≡ self.now.text }
        ensures len { length result.now ≡ size self.now.text }
        ensures boundaries { (i : ℕ) → IsCharBoundary result.now i → IsBoundary self.now.text i }
    {
        self.repr.as_str()
    }

    /// Returns the text as UTF-8 bytes.
    ///
    /// # Examples
    ///
    /// ```
    /// let text = CompactString::new(alloc, "é")?;
    /// assert_eq!(rt; text.as_bytes(), [0xC3, 0xA9].as_slice());
    /// ```
    #[inline]
    pub fn as_bytes(&self) -> &[u8]
        ensures bytes { result.now ≡ utf8 self.now.text }
        ensures text { text_of result.now ≡ self.now.text }
        ensures encoded { IsUtf8 result.now }
        ensures len { length result.now ≡ size self.now.text }
    {
        self.as_str().as_bytes()
    }

    /// Returns the text of a static string, which outlives it, or `None` for any other.
    ///
    /// # Examples
    ///
    /// See [`const_new`].
    #[inline]
    pub fn as_static_str(&self) -> Option<&'static str>
        ensures place { IsSome result ↔ IsStatic self.now }
        ensures bytes { IfSome result (λ s. s.now ≡ utf8 self.now.text) }
        ensures text { IfSome result (λ s. text_of s.now ≡ self.now.text) }
    {
        self.repr.as_static_str()
    }

    /// Returns the 24 bytes of an inline string, or `None` for any other. `from_packed` restores the string.
    ///
    /// A text of 24 bytes fills the array. A shorter one is followed by unspecified bytes, and the last byte is
    /// `192 + len`.
    ///
    /// # Examples
    ///
    /// ```
    /// let text = CompactString::new(alloc, "é")?;
    /// let bytes = text.packed();
    /// assert_eq!(rt; bytes.map(|bytes| bytes[23]), Some(192 + 2));
    /// let copy = bytes.and_then(|bytes| CompactString::from_packed(alloc, &bytes));
    /// assert!(rt; copy == Some(text));
    /// ```
    #[inline]
    pub fn packed(&self) -> Option<[u8; 24]>
        ensures place { IsSome result ↔ (IsInline self.now) }
        ensures bytes { IfSome result (λ bytes. IsPackedFor bytes self.now.text) }
    {
        self.repr.packed()
    }

    /// Returns the length in bytes. In a proof, `sound` says that the text fits its place.
    ///
    /// # Examples
    ///
    /// ```
    /// assert_eq!(rt; CompactString::new(alloc, "é")?.len(), 2);
    /// ```
    #[inline]
    pub fn len(&self) -> usize
        ensures value { result ≡ size self.now.text }
        ensures bytes { result ≡ length (utf8 self.now.text) }
        ensures small { result < 2 ^ 63 }
        ensures sound { IsSound self.now }
    {
        self.repr.len()
    }

    /// Returns `true` if the length is 0.
    ///
    /// # Examples
    ///
    /// ```
    /// assert!(rt; CompactString::new(alloc, "")?.is_empty());
    /// assert!(rt; !CompactString::new(alloc, " ")?.is_empty());
    /// ```
    #[inline]
    #[tactic(auto, using(compact_text::proofs::Texts::empty_text))]
    pub fn is_empty(&self) -> bool
        ensures text { IsTrue result ↔ (self.now.text ≡ []) }
        ensures size { IsTrue result ↔ (size self.now.text ≡ 0) }
    {
        self.repr.is_empty()
    }

    /// Returns the capacity in bytes: 24 if inline, the length if static, and the size of the buffer on the heap.
    ///
    /// # Examples
    ///
    /// See [`new`].
    #[inline]
    pub fn capacity(&self) -> usize
        ensures { result ≡ self.now.placement.capacity }
    {
        self.repr.capacity()
    }

    /// Returns `true` if the string is heap-allocated.
    ///
    /// # Examples
    ///
    /// See [`new`].
    #[inline]
    pub fn is_heap_allocated(&self) -> bool
        ensures { result ≡ is_heap_place self.now.placement.place }
    {
        self.repr.is_heap_allocated()
    }

    /// Returns `true` if `index`, in bytes, is 0, the length or the start of a character. The text may be cut only
    /// there, as by `&value[..index]`.
    ///
    /// # Examples
    ///
    /// ```
    /// let text = CompactString::new(alloc, "äb")?;
    /// assert!(rt; text.is_char_boundary(2));
    /// assert!(rt; !text.is_char_boundary(1));
    /// ```
    #[inline]
    pub fn is_char_boundary(&self, index: usize) -> bool
        ensures text { IsTrue result ↔ IsBoundary self.now.text index }
        ensures bytes { OnTrue result (IsCharBoundary (utf8 self.now.text) index) }
    {
        self.repr.is_char_boundary(index)
    }
}
