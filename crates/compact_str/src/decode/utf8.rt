//! Decoding UTF-8 from a slice.
ghost use Rattle.std.specs.Prelude.{◌≡◌, ◌<◌, ◌≤◌, length, IfOk, IfErr, OnOk, OnErr, IsOk};
ghost use Rattle.std.specs.Str.{IsUtf8};
ghost use Rattle.compact_str.specs.Words.{size, text_of, utf8, INLINE_CAPACITY, IsPlacedAsNew, standard_growth};
ghost use Rattle.compact_codec.specs.InvalidSequence.{IsUtf8Error};
ghost use Rattle.compact_codec.specs.Utf8Text.{BytesEncode, utf8_lossy_text};
ghost use Rattle.compact_str.specs.Room.{IsPlacedBySize};
ghost use Rattle.compact_str.specs.Decoding.{MakesText, IsUtf8Refusal};
ghost use Rattle.compact_str.specs.Conversions.{CopiesText};

use crate::decode::error::FromUtf8Error;
use crate::decode::{REPLACEMENT, push_or_reserve};
use crate::error::ReserveError;
use crate::string::{CompactString, PolicyString};
use compact_codec::utf8::{self, Utf8Error};
use compact_repr::{Policy, Standard};
use std::alloc::Global;

impl PolicyString<Standard> {
    /// Converts bytes to a string, placed as by [`new`](Self::new). Validates before it allocates.
    ///
    /// # Errors
    ///
    /// - `Utf8` if the bytes are not valid UTF-8, with the position.
    /// - `Reserve` if allocation fails, which is never up to 24 bytes.
    ///
    /// # Examples
    ///
    /// ```
    /// let name = CompactString::from_utf8(alloc, b"caf\xC3\xA9")?;
    /// assert_eq!(rt; name.as_str(), "café");
    ///
    /// // The input ends inside a character of three bytes.
    /// let error = CompactString::from_utf8(alloc, b"a\xE2\x82").err();
    /// assert!(rt; error == Some(FromUtf8Error::Utf8 { valid_up_to: 1, error_len: None }));
    /// ```
    #[inline(always)]
    #[tactic(auto, using(crate::proofs::DecodedValues::strict_facts))]
    pub fn from_utf8(alloc: Global, bytes: &[u8]) -> Result<CompactString, FromUtf8Error>
        // Copies valid bytes as `new` does.
        ensures text { IfOk result (λ v. v.text ≡ text_of bytes.now) }
        ensures bytes { IfOk result (λ v. utf8 v.text ≡ bytes.now) }
        ensures encoded { IfOk result (λ v. BytesEncode bytes.now v.text) }
        ensures valid { OnOk result (IsUtf8 bytes.now) }
        ensures place { IfOk result (IsPlacedAsNew standard_growth) }

        // `Utf8` if the bytes are invalid, with the position; `Reserve` only for over 24 valid bytes.
        ensures succeeds { IsUtf8 bytes.now → length bytes.now ≤ INLINE_CAPACITY → IsOk result }
        ensures cause { IfErr result (IsUtf8Refusal bytes.now) }
    {
        match utf8::validate(bytes) {
            Ok(text) => Ok(Self::new(alloc, text)?),
            Err(error) => Err(FromUtf8Error::Utf8 {
                valid_up_to: error.valid_up_to,
                error_len: error.error_len,
            }),
        }
    }

    /// Converts bytes to a string, replacing each invalid sequence with U+FFFD. An invalid sequence is the longest run
    /// of bytes that begins a character, or else one byte. The result is inline up to 24 bytes, else on the heap.
    ///
    /// # Errors
    ///
    /// [`ReserveError`] if allocation fails. Never fails up to 24 bytes of text.
    ///
    /// # Examples
    ///
    /// ```
    /// let name = CompactString::from_utf8_lossy(alloc, b"\xE1\x80A")?;
    /// assert_eq!(rt; name.as_str(), "\u{FFFD}A");
    ///
    /// let name = CompactString::from_utf8_lossy(alloc, b"\xC0\x80")?;
    /// assert_eq!(rt; name.as_str(), "\u{FFFD}\u{FFFD}");
    /// ```
    #[inline(always)]
    #[tactic(auto, using(compact_codec::proofs::ForDecoders::lossy_decoding_facts, crate::proofs::DecodedValues::new_facts))]
    pub fn from_utf8_lossy(alloc: Global, bytes: &[u8]) -> Result<CompactString, ReserveError>
        // Replaces each invalid sequence with U+FFFD: inline up to 24 bytes, else on the heap.
        ensures text { IfOk result (λ v. v.text ≡ utf8_lossy_text bytes.now) }
        ensures place { IfOk result IsPlacedBySize }

        // Never fails up to 24 bytes of text.
        ensures succeeds { size (utf8_lossy_text bytes.now) ≤ INLINE_CAPACITY → IsOk result }
        ensures allocates { OnErr result (INLINE_CAPACITY < size (utf8_lossy_text bytes.now)) }
    {
        match utf8::validate(bytes) {
            Ok(text) => Self::new(alloc, text),
            Err(error) => decode_lossy(alloc, bytes, error),
        }
    }

    /// Converts bytes to a string without validating them: they must be valid UTF-8. Placed as by [`new`](Self::new).
    /// See [`from_utf8`](Self::from_utf8).
    ///
    /// # Errors
    ///
    /// [`ReserveError`] as from `new`.
    #[inline]
    pub fn from_utf8_unchecked(alloc: Global, bytes: &[u8]) -> Result<CompactString, ReserveError>
        requires { IsUtf8 bytes.now }
        // As `new`.
        ensures { CopiesText standard_growth bytes.now result }
    {
        Self::new(alloc, unsafe { std::str::from_utf8_unchecked(bytes) })
    }
}

/// Converts invalid bytes, chunk by chunk, from their first error on.
#[inline(never)]
#[tactic(auto, using(compact_codec::proofs::ForDecoders::lossy_decoding_facts, crate::proofs::DecodedValues::decoded_part_facts))]
fn decode_lossy(
    alloc: Global,
    bytes: &[u8],
    error: Utf8Error,
) -> Result<CompactString, ReserveError>
    requires { IsUtf8Error bytes.now error.valid_up_to error.error_len }
    ensures { MakesText (utf8_lossy_text bytes.now) result }
{
    let mut made = CompactString::default(alloc);
    let mut chunk = utf8::chunk_at(bytes, error);
    while !chunk.invalid.is_empty() {
        push_or_reserve(&mut made, chunk.valid, chunk.rest.len().saturating_add(3))?;
        push_or_reserve(&mut made, REPLACEMENT, chunk.rest.len())?;
        chunk = utf8::first_chunk(chunk.rest);
    }
    push_or_reserve(&mut made, chunk.valid, 0)?;
    Ok(made)
}
