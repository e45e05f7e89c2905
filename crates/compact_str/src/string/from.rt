//! Conversions into a string: `From`, `TryFrom`, and the calls that take ownership.
ghost use Rattle.std.specs.Prelude.{◌≡◌, ◌<◌, ℕ, length, IfOk, IfErr, IsOk, ◌↔◌, MatchResult, string_bytes};
ghost use Rattle.std.specs.Str.{IsUtf8};
ghost use Rattle.std.specs.Vec.{vec_capacity};
ghost use Rattle.std.specs.String.{string_capacity, from_utf8_error_vec, from_utf8_error_cause};
ghost use Rattle.std.specs.Box.{boxed_str_bytes};
ghost use Rattle.std.specs.Cow.{cow_str_bytes};
ghost use Rattle.compact_str.specs.Words.{text_of, utf8, placed_text, IsHeap, from_string_placement};
ghost use Rattle.compact_str.specs.Conversions.{CopiesText, string_buffer_placement, ConvertsCow, IsFreeCow};
ghost use Rattle.compact_str.specs.Decoding.{IsErrorOf};

use crate::error::ReserveError;
use crate::refused::Refused;
use crate::string::PolicyString;
use compact_repr::{Policy, Repr};
use std::alloc::Global;
use std::borrow::CowStr;
use std::boxed::BoxedStr;
use std::string::FromUtf8Error;

impl<P: Policy> PolicyString<P> {
    /// Creates a string that reuses the buffer and capacity of `text`, even if it is short. Neither copies nor
    /// allocates. A `text` with no buffer becomes inline and empty.
    ///
    /// # Examples
    ///
    /// ```
    /// let mut text = String::with_capacity(alloc, 10)?;
    /// text.push('é')?;
    /// let name = CompactString::from_string_buffer(text);
    /// assert!(rt; name.is_heap_allocated());
    /// assert_eq!(rt; name.capacity(), 10);
    /// ```
    pub fn from_string_buffer(text: String) -> Self
        ensures value { let t = text_of (string_bytes text)
            in result ≡ placed_text t (string_buffer_placement (string_capacity text)) }
        ensures place { 0 < length (string_bytes text) → IsHeap result }
    {
        PolicyString {
            repr: Repr::from_string_buffer(text),
        }
    }

    /// Copies a borrowed text as `new` does, and takes ownership of an owned one as `From<String>` does.
    ///
    /// # Errors
    ///
    /// [`ReserveError`] if copying a borrowed text of more than 24 bytes fails.
    ///
    /// # Examples
    ///
    /// ```
    /// let name = CompactString::from_cow(alloc, CowStr::Borrowed("Zoë"))?;
    /// assert_eq!(rt; name.as_str(), "Zoë");
    /// ```
    #[tactic(auto, using(crate::proofs::EditFacts::string_facts))]
    pub fn from_cow(alloc: Global, text: CowStr<'_>) -> Result<Self, ReserveError>
        // Copies a borrowed text as `new` does, and reuses the buffer of an owned one.
        ensures converts { ConvertsCow P.growth text.entry result }
        ensures text { IfOk result (λ v. v.text ≡ text_of (cow_str_bytes text.entry)) }
        ensures bytes { IfOk result (λ v. utf8 v.text ≡ cow_str_bytes text.entry) }
        ensures succeeds { IsFreeCow text.entry → IsOk result }
    {
        match text {
            CowStr::Borrowed(borrowed) => Self::new(alloc, borrowed),
            CowStr::Owned(owned) => Ok(Self::from(owned)),
        }
    }

    /// Copies `text` like `new`, then drops the box. `From<BoxedStr>` reuses the box's buffer instead, and never fails.
    ///
    /// # Errors
    ///
    /// [`Refused`] with `text`, unchanged, if allocation fails. Never fails for at most 24 bytes.
    ///
    /// # Examples
    ///
    /// ```
    /// let text = String::from_str(alloc, "Zoë")?.into_boxed_str();
    /// let name = CompactString::from_boxed_str(alloc, text).map_err(ReserveError::from)?;
    /// assert_eq!(rt; name.as_str(), "Zoë");
    /// assert!(rt; !name.is_heap_allocated());
    /// ```
    pub fn from_boxed_str(alloc: Global, text: BoxedStr) -> Result<Self, Refused<BoxedStr>>
        // Copies as `new` does, and frees the box. The error has the box.
        ensures copies { CopiesText P.growth (boxed_str_bytes text) result }
        ensures err { IfErr result (λ e. e.value ≡ text) }
    {
        match Self::new(alloc, text.as_str()) {
            Ok(value) => Ok(value),
            Err(error) => Err(Refused { error, value: text }),
        }
    }
}

impl<P: Policy> From<String> for PolicyString<P> {
    ghost from_gives = { λ s v. let t = text_of (string_bytes s) in
        (v ≡ placed_text t (from_string_placement t (string_capacity s)))
        × (utf8 v.text ≡ string_bytes s) };

    /// Takes ownership of `text` without allocating. Up to 24 bytes it becomes inline and its buffer is freed;
    /// otherwise it keeps its buffer and capacity.
    ///
    /// # Examples
    ///
    /// ```
    /// let text = String::from_str(alloc, "Zoë")?;
    /// assert!(rt; !CompactString::from(text).is_heap_allocated());
    /// ```
    #[tactic(auto, using(crate::proofs::ForCallers::byte_facts))]
    fn from(text: String) -> Self {
        PolicyString {
            repr: Repr::from_string(text),
        }
    }
}

impl<P: Policy> TryFrom<Vec<u8>> for PolicyString<P> {
    type Error = FromUtf8Error;

    ghost try_from_gives = { λ b r. (IsOk r ↔ IsUtf8 b.items) × MatchResult r
        (λ v. let t = text_of b.items in
        (v ≡ placed_text t (from_string_placement t (vec_capacity b))) × (utf8 v.text ≡ b.items))
        (λ e. (from_utf8_error_vec e ≡ b) × IsErrorOf b.items (from_utf8_error_cause e)) };

    /// Takes ownership of UTF-8 bytes as `From<String>` does, without allocating.
    ///
    /// # Errors
    ///
    /// `FromUtf8Error` with the bytes if they are not valid UTF-8.
    ///
    /// # Examples
    ///
    /// ```
    /// let bytes = Vec::from_slice(alloc, &[0xC3u8, 0xA9])?;
    /// assert_eq!(rt; CompactString::try_from(bytes)?.as_str(), "é");
    ///
    /// let bytes = Vec::from_slice(alloc, &[0xC3u8])?;
    /// assert!(rt; CompactString::try_from(bytes).is_err());
    /// ```
    fn try_from(bytes: Vec<u8>) -> Result<Self, FromUtf8Error> {
        match String::from_utf8(bytes) {
            Ok(text) => Ok(Self::from(text)),
            Err(error) => Err(error),
        }
    }
}

impl<P: Policy> From<BoxedStr> for PolicyString<P> {
    ghost from_gives = { λ b v. let t = text_of (boxed_str_bytes b) in
        (v.text ≡ t) × (utf8 v.text ≡ boxed_str_bytes b)
        × ((capacity : ℕ) × (v ≡ placed_text t (from_string_placement t capacity))) };

    /// Takes ownership of `text` as `From<String>` does, with the capacity of the box. Never allocates, unlike
    /// `from_boxed_str`.
    #[tactic(auto, using(crate::proofs::EditFacts::string_facts))]
    fn from(text: BoxedStr) -> Self {
        let text = text.into_string();
        Self::from(text)
    }
}
