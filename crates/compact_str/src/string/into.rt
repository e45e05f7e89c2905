//! Conversions out of a string.
ghost use Rattle.std.specs.Prelude.{◌≡◌, ◌≤◌, IfOk, IfErr, OnErr, IsOk, string_bytes};
ghost use Rattle.std.specs.Vec.{vec_items, vec_capacity};
ghost use Rattle.std.specs.String.{string_capacity};
ghost use Rattle.std.specs.Box.{boxed_str_bytes};
ghost use Rattle.std.specs.Rc.{rc_str_bytes};
ghost use Rattle.std.specs.Cow.{cow_str_bytes, IsBorrowedStr};
ghost use Rattle.compact_str.specs.Words.{size, utf8, text_of, IsInline, IsOwned, IsStatic, IsHeap, AllocatesFor, owned, INLINE_CAPACITY};
ghost use Rattle.compact_str.specs.Conversions.{ConvertsTo};

use crate::error::ReserveError;
use crate::refused::Refused;
use crate::string::PolicyString;
use compact_repr::{Policy, Repr};
use smallvec::SmallVec;
use std::borrow::CowStr;
use std::boxed::BoxedStr;
use std::rc::RcStr;

impl<P: Policy> PolicyString<P> {
    /// Converts into a `String`. A heap string keeps its buffer and at least its capacity; any other is copied.
    ///
    /// # Errors
    ///
    /// [`Refused`] with the string, unchanged, if the copy cannot be allocated. Never fails for a heap string.
    ///
    /// # Examples
    ///
    /// ```
    /// let name = CompactString::new(alloc, "café")?;
    /// let text = name.into_string().map_err(ReserveError::from)?;
    /// assert_eq!(rt; text.as_str(), "café");
    /// ```
    pub fn into_string(self) -> Result<String, Refused<Self>>
        // Returns the text. A heap string keeps its buffer, and at least its capacity.
        ensures bytes { IfOk result (λ s. string_bytes s ≡ utf8 self.text) }
        ensures text { IfOk result (λ s. text_of (string_bytes s) ≡ self.text) }
        ensures capacity { IsHeap self
            → IfOk result (λ s. self.placement.capacity ≤ string_capacity s) }

        // Fails only if copying an inline or static string fails. The error has the string.
        ensures succeeds { IsHeap self → IsOk result }
        ensures err { IfErr result (λ e. e.value ≡ self) }
    {
        let PolicyString { repr } = self;
        match repr.into_heap_string() {
            Ok(text) => Ok(text),
            Err(repr) => match String::from_str(repr.allocator(), repr.as_str()) {
                Ok(copy) => Ok(copy),
                Err(_) => Err(with_error(repr)),
            },
        }
    }

    /// Converts into a vector of bytes. A heap string keeps its buffer; any other is copied.
    ///
    /// # Errors
    ///
    /// [`Refused`] as from `into_string`.
    ///
    /// # Examples
    ///
    /// ```
    /// let text = CompactString::new(alloc, "é")?;
    /// let bytes = text.into_vec().map_err(ReserveError::from)?;
    /// assert_eq!(rt; bytes.as_slice(), [0xC3, 0xA9].as_slice());
    /// ```
    pub fn into_vec(self) -> Result<Vec<u8>, Refused<Self>>
        // As `into_string`.
        ensures converts { ConvertsTo vec_items self result }
        ensures capacity { IsHeap self
            → IfOk result (λ v. self.placement.capacity ≤ vec_capacity v) }
    {
        Ok(self.into_string()?.into_bytes())
    }

    /// Converts into a `SmallVec` with 24 bytes inline. Reuses a heap buffer of more than 24 bytes; otherwise copies.
    ///
    /// # Errors
    ///
    /// [`Refused`] with the string, unchanged, if it is static with more than 24 bytes and the copy cannot be
    /// allocated.
    ///
    /// # Examples
    ///
    /// ```
    /// let text = CompactString::new(alloc, "é")?;
    /// let bytes = text.into_bytes().map_err(ReserveError::from)?;
    /// assert_eq!(rt; bytes.as_slice(), [0xC3, 0xA9].as_slice());
    /// assert_eq!(rt; bytes.capacity(), 24);
    /// ```
    pub fn into_bytes(self) -> Result<SmallVec<u8, 24>, Refused<Self>>
        // Returns the bytes of the text.
        ensures bytes { IfOk result (λ v. v.items ≡ utf8 self.text) }
        ensures text { IfOk result (λ v. text_of v.items ≡ self.text) }

        // Fails only if copying a static string of over 24 bytes fails. The error has the string.
        ensures succeeds { size self.text ≤ INLINE_CAPACITY → IsOk result }
        ensures succeeds_owned { IsOwned self → IsOk result }
        ensures allocates { OnErr result (AllocatesFor self owned) }
        ensures err { IfErr result (λ e. e.value ≡ self) }
    {
        let PolicyString { repr } = self;
        match repr.into_heap_string() {
            Ok(text) => Ok(SmallVec::from_vec(text.into_bytes())),
            Err(repr) => match SmallVec::from_slice(repr.allocator(), repr.as_str().as_bytes()) {
                Ok(bytes) => Ok(bytes),
                Err(_) => Err(with_error(repr)),
            },
        }
    }

    /// Converts into a `BoxedStr`. A heap string keeps its buffer; any other is copied.
    ///
    /// # Errors
    ///
    /// [`Refused`] as from `into_string`.
    ///
    /// # Examples
    ///
    /// ```
    /// let name = CompactString::new(alloc, "café")?;
    /// let text = name.into_boxed_str().map_err(ReserveError::from)?;
    /// assert_eq!(rt; text.as_str(), "café");
    /// ```
    pub fn into_boxed_str(self) -> Result<BoxedStr, Refused<Self>>
        // As `into_string`.
        ensures { ConvertsTo boxed_str_bytes self result }
    {
        Ok(self.into_string()?.into_boxed_str())
    }

    /// Converts into an `RcStr`; always copies.
    ///
    /// # Errors
    ///
    /// [`Refused`] with the string, unchanged, if the copy cannot be allocated. When it succeeds is tested, not proved.
    ///
    /// # Examples
    ///
    /// ```
    /// let name = CompactString::new(alloc, "café")?;
    /// let shared = name.into_rc().map_err(ReserveError::from)?;
    /// assert_eq!(rt; shared.as_str(), "café");
    /// ```
    pub fn into_rc(self) -> Result<RcStr, Refused<Self>>
        ensures bytes { IfOk result (λ r. rc_str_bytes r ≡ utf8 self.text) }
        ensures text { IfOk result (λ r. text_of (rc_str_bytes r) ≡ self.text) }
        ensures err { IfErr result (λ e. e.value ≡ self) }
    {
        match RcStr::from_str(self.repr.allocator(), self.repr.as_str()) {
            Ok(shared) => Ok(shared),
            Err(_) => Err(Refused {
                error: ReserveError,
                value: self,
            }),
        }
    }

    /// Converts into a `CowStr`: borrows a static string, keeps the buffer of a heap one and copies an inline one.
    ///
    /// # Errors
    ///
    /// [`Refused`] with the string, unchanged, if it is inline and the copy cannot be allocated.
    ///
    /// # Examples
    ///
    /// ```
    /// let digits = CompactString::const_new(alloc, "0123456789abcdefghijklmno");
    /// let cow = digits.into_cow().map_err(ReserveError::from)?;
    /// assert!(rt; matches!(cow, CowStr::Borrowed(_)));
    /// ```
    pub fn into_cow(self) -> Result<CowStr<'static>, Refused<Self>>
        // Returns the text, borrowed from a static string and owned otherwise.
        ensures bytes { IfOk result (λ c. cow_str_bytes c ≡ utf8 self.text) }
        ensures text { IfOk result (λ c. text_of (cow_str_bytes c) ≡ self.text) }
        ensures borrowed { IsStatic self → IfOk result IsBorrowedStr }
        ensures owned { IsOwned self → IfOk result (λ c. ¬ IsBorrowedStr c) }

        // Fails only if copying an inline string fails. The error has the string.
        ensures succeeds_static { IsStatic self → IsOk result }
        ensures succeeds_heap { IsHeap self → IsOk result }
        ensures allocates { OnErr result (IsInline self) }
        ensures err { IfErr result (λ e. e.value ≡ self) }
    {
        if let Some(text) = self.repr.as_static_str() {
            return Ok(CowStr::Borrowed(text));
        }
        Ok(CowStr::Owned(self.into_string()?))
    }

    /// Returns the text as a borrowed `CowStr`.
    ///
    /// # Examples
    ///
    /// ```
    /// let name = CompactString::new(alloc, "café")?;
    /// assert_eq!(rt; name.as_cow().as_str(), "café");
    /// ```
    #[inline]
    pub fn as_cow(&self) -> CowStr<'_>
        ensures bytes { cow_str_bytes result ≡ utf8 self.now.text }
        ensures text { text_of (cow_str_bytes result) ≡ self.now.text }
        ensures borrowed { IsBorrowedStr result }
    {
        CowStr::Borrowed(self.as_str())
    }
}

/// Returns the string in an error.
fn with_error<P: Policy>(repr: Repr<P>) -> Refused<PolicyString<P>>
    ensures { result.value ≡ repr }
{
    Refused {
        error: ReserveError,
        value: PolicyString { repr },
    }
}
