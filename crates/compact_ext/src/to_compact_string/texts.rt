//! Strings from `bool`, `char` and texts.
ghost use Rattle.std.specs.Prelude.{◌≤◌, [], ◌∷◌, length, string_bytes, ⊤};
ghost use Rattle.std.specs.Box.{boxed_str_bytes};
ghost use Rattle.std.specs.Cow.{cow_str_bytes};
ghost use Rattle.compact_str.specs.Words.{INLINE_CAPACITY, size, text_of};
ghost use Rattle.compact_ext.specs.Shown.{Converts, bool_text};

use crate::format::ToCompactStringError;
use crate::to_compact_string::ToCompactString;
use compact_str::CompactString;
use std::alloc::Global;
use std::borrow::CowStr;
use std::boxed::BoxedStr;

/// Copies a text, placed as by `CompactString::new`.
///
/// # Errors
///
/// `Reserve` if allocation fails. Never fails up to 24 bytes.
#[inline]
pub fn text_copy(alloc: Global, text: &str) -> Result<CompactString, ToCompactStringError>
    // As `ToCompactString::to_compact_string`.
    ensures { Converts (text_of text.now) (length text.now ≤ INLINE_CAPACITY) result }
{
    CompactString::new(alloc, text).map_err(ToCompactStringError::Reserve)
}

impl ToCompactString for bool {
    ghost shown_text = { bool_text };

    ghost IsShort = { λ _. ⊤ };

    #[inline]
    #[tactic(auto, using(crate::proofs::TextCopyLemmas::text_copy_facts))]
    fn to_compact_string(&self, alloc: Global) -> Result<CompactString, ToCompactStringError> {
        if *self {
            text_copy(alloc, "true")
        } else {
            text_copy(alloc, "false")
        }
    }
}

impl ToCompactString for char {
    ghost shown_text = { λ c. c ∷ [] };

    ghost IsShort = { λ _. ⊤ };

    #[inline]
    #[tactic(auto, using(crate::proofs::TextCopyLemmas::text_copy_facts))]
    fn to_compact_string(&self, alloc: Global) -> Result<CompactString, ToCompactStringError> {
        let mut bytes = [0; 4];
        text_copy(alloc, self.encode_utf8(&mut bytes))
    }
}

impl ToCompactString for &str {
    ghost shown_text = { λ s. text_of s.now };

    ghost IsShort = { λ s. length s.now ≤ INLINE_CAPACITY };

    #[inline]
    fn to_compact_string(&self, alloc: Global) -> Result<CompactString, ToCompactStringError> {
        text_copy(alloc, *self)
    }
}

impl ToCompactString for String {
    ghost shown_text = { λ s. text_of (string_bytes s) };

    ghost IsShort = { λ s. length (string_bytes s) ≤ INLINE_CAPACITY };

    #[inline]
    fn to_compact_string(&self, alloc: Global) -> Result<CompactString, ToCompactStringError> {
        text_copy(alloc, self)
    }
}

impl ToCompactString for BoxedStr {
    ghost shown_text = { λ s. text_of (boxed_str_bytes s) };

    ghost IsShort = { λ s. length (boxed_str_bytes s) ≤ INLINE_CAPACITY };

    #[inline]
    fn to_compact_string(&self, alloc: Global) -> Result<CompactString, ToCompactStringError> {
        text_copy(alloc, BoxedStr::as_str(self))
    }
}

impl ToCompactString for CowStr<'_> {
    ghost shown_text = { λ s. text_of (cow_str_bytes s) };

    ghost IsShort = { λ s. length (cow_str_bytes s) ≤ INLINE_CAPACITY };

    #[inline]
    fn to_compact_string(&self, alloc: Global) -> Result<CompactString, ToCompactStringError> {
        text_copy(alloc, CowStr::as_str(self))
    }
}

impl ToCompactString for CompactString {
    ghost shown_text = { λ v. v.text };

    ghost IsShort = { λ v. size v.text ≤ INLINE_CAPACITY };

    #[inline]
    fn to_compact_string(&self, alloc: Global) -> Result<CompactString, ToCompactStringError> {
        text_copy(alloc, self.as_str())
    }
}
