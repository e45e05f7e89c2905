//! Decoding UTF-16, from units or pairs of bytes.
ghost use Rattle.std.specs.Prelude.{◌<◌, ◌≤◌, ℕ, List, IfOk, IfErr, IsOk};
ghost use Rattle.compact_str.specs.Words.{INLINE_CAPACITY, size};
ghost use Rattle.compact_codec.specs.Utf16Text.{UnitsEncode, utf16_lossy_text};
ghost use Rattle.compact_codec.specs.Utf16Bytes.{units_of, utf16_bytes_lossy_text};
ghost use Rattle.compact_codec.specs.declared.utf16_bytes.ByteOrder.TheVariants.{LittleEndian, BigEndian};
ghost use Rattle.compact_str.specs.Room.{IsPlacedBySize};
ghost use Rattle.compact_str.specs.Decoding.{MakesText, IsUtf16Refusal, IsUtf16BytesRefusal, PairsEncode};

use crate::decode::error::{FromUtf16Error, Utf16Error};
use crate::decode::utf16_block::{BUFFER_LEN, encode_into, utf8_len_hint};
use crate::decode::{REPLACEMENT, push_or_reserve};
use crate::error::ReserveError;
use crate::string::{CompactString, PolicyString};
use compact_codec::utf16::{self, Units};
use compact_codec::utf16_bytes::{self, ByteOrder, HighFirst, LowFirst};
use compact_repr::Standard;
use std::alloc::Global;

impl PolicyString<Standard> {
    /// Converts UTF-16 units to a string, inline up to 24 bytes, else on the heap. Validates before it allocates.
    ///
    /// # Errors
    ///
    /// - `Utf16` if a surrogate is unpaired.
    /// - `Reserve` if allocation fails, which is never up to 24 bytes of text.
    ///
    /// # Examples
    ///
    /// ```
    /// let clef = CompactString::from_utf16(alloc, &[0xD834, 0xDD1E])?;
    /// assert_eq!(rt; clef.as_str(), "𝄞");
    ///
    /// let unpaired = CompactString::from_utf16(alloc, &[0xD834, 0x41]);
    /// assert!(rt; matches!(unpaired, Err(FromUtf16Error::Utf16(_))));
    /// ```
    #[tactic(auto, using(compact_codec::proofs::ForDecoders::strict_decoding_facts))]
    pub fn from_utf16(alloc: Global, units: &[u16]) -> Result<CompactString, FromUtf16Error>
        // Decodes valid units: inline up to 24 bytes, else on the heap.
        ensures text { IfOk result (λ v. UnitsEncode units.now v.text) }
        ensures place { IfOk result IsPlacedBySize }

        // `Utf16` if the input is invalid; `Reserve` only for over 24 bytes of text.
        ensures succeeds { (text : List ℕ) → UnitsEncode units.now text
            → size text ≤ INLINE_CAPACITY → IsOk result }
        ensures cause { IfErr result (IsUtf16Refusal units.now) }
    {
        if !utf16::is_utf16(units) {
            return Err(FromUtf16Error::Utf16(Utf16Error));
        }
        Ok(Self::from_utf16_lossy(alloc, units)?)
    }

    /// Converts UTF-16 units to a string, replacing each unpaired surrogate with U+FFFD. The result is inline up to 24
    /// bytes, else on the heap.
    ///
    /// # Errors
    ///
    /// [`ReserveError`] if allocation fails. Never fails up to 24 bytes of text.
    ///
    /// # Examples
    ///
    /// ```
    /// let name = CompactString::from_utf16_lossy(alloc, &[0xD834, 0x41])?;
    /// assert_eq!(rt; name.as_str(), "\u{FFFD}A");
    /// ```
    pub fn from_utf16_lossy(alloc: Global, units: &[u16]) -> Result<CompactString, ReserveError>
        // As `from_utf8_lossy`.
        ensures { MakesText (utf16_lossy_text units.now) result }
    {
        from_units_lossy(alloc, units)
    }

    /// Like [`from_utf16`](Self::from_utf16), from pairs of bytes, the low byte first. Keeps a byte order mark.
    ///
    /// # Errors
    ///
    /// - `Utf16` if a surrogate is unpaired or the number of bytes is odd.
    /// - `Reserve` as from `from_utf16`.
    ///
    /// # Examples
    ///
    /// ```
    /// let euro = CompactString::from_utf16le(alloc, &[0xAC, 0x20])?;
    /// assert_eq!(rt; euro.as_str(), "€");
    /// ```
    pub fn from_utf16le(alloc: Global, bytes: &[u8]) -> Result<CompactString, FromUtf16Error>
        // Decodes valid units: inline up to 24 bytes, else on the heap.
        ensures text { IfOk result (λ v. PairsEncode LittleEndian bytes.now v.text) }
        ensures place { IfOk result IsPlacedBySize }

        // `Utf16` if the input is invalid; `Reserve` only for over 24 bytes of text.
        ensures succeeds { (text : List ℕ) → PairsEncode LittleEndian bytes.now text
            → size text ≤ INLINE_CAPACITY → IsOk result }
        ensures cause { IfErr result (IsUtf16BytesRefusal LittleEndian bytes.now) }
    {
        from_utf16_bytes(alloc, ByteOrder::LittleEndian, bytes)
    }

    /// Like [`from_utf16`](Self::from_utf16), from pairs of bytes, the high byte first. Keeps a byte order mark.
    ///
    /// # Errors
    ///
    /// - `Utf16` if a surrogate is unpaired or the number of bytes is odd.
    /// - `Reserve` as from `from_utf16`.
    ///
    /// # Examples
    ///
    /// ```
    /// let euro = CompactString::from_utf16be(alloc, &[0x20, 0xAC])?;
    /// assert_eq!(rt; euro.as_str(), "€");
    /// ```
    pub fn from_utf16be(alloc: Global, bytes: &[u8]) -> Result<CompactString, FromUtf16Error>
        // Decodes valid units: inline up to 24 bytes, else on the heap.
        ensures text { IfOk result (λ v. PairsEncode BigEndian bytes.now v.text) }
        ensures place { IfOk result IsPlacedBySize }

        // `Utf16` if the input is invalid; `Reserve` only for over 24 bytes of text.
        ensures succeeds { (text : List ℕ) → PairsEncode BigEndian bytes.now text
            → size text ≤ INLINE_CAPACITY → IsOk result }
        ensures cause { IfErr result (IsUtf16BytesRefusal BigEndian bytes.now) }
    {
        from_utf16_bytes(alloc, ByteOrder::BigEndian, bytes)
    }

    /// Like [`from_utf16_lossy`](Self::from_utf16_lossy), from pairs of bytes, the low byte first. An odd last byte
    /// becomes U+FFFD. Keeps a byte order mark.
    ///
    /// # Errors
    ///
    /// [`ReserveError`] as from `from_utf16_lossy`.
    ///
    /// # Examples
    ///
    /// ```
    /// let name = CompactString::from_utf16le_lossy(alloc, &[0x41, 0, 0x42])?;
    /// assert_eq!(rt; name.as_str(), "A\u{FFFD}");
    /// ```
    pub fn from_utf16le_lossy(alloc: Global, bytes: &[u8]) -> Result<CompactString, ReserveError>
        // As `from_utf8_lossy`.
        ensures { MakesText (utf16_bytes_lossy_text LittleEndian bytes.now) result }
    {
        from_utf16_bytes_lossy(alloc, ByteOrder::LittleEndian, bytes)
    }

    /// Like [`from_utf16_lossy`](Self::from_utf16_lossy), from pairs of bytes, the high byte first. An odd last byte
    /// becomes U+FFFD. Keeps a byte order mark.
    ///
    /// # Errors
    ///
    /// [`ReserveError`] as from `from_utf16_lossy`.
    ///
    /// # Examples
    ///
    /// ```
    /// let name = CompactString::from_utf16be_lossy(alloc, &[0, 0x41, 0x42])?;
    /// assert_eq!(rt; name.as_str(), "A\u{FFFD}");
    /// ```
    pub fn from_utf16be_lossy(alloc: Global, bytes: &[u8]) -> Result<CompactString, ReserveError>
        // As `from_utf8_lossy`.
        ensures { MakesText (utf16_bytes_lossy_text BigEndian bytes.now) result }
    {
        from_utf16_bytes_lossy(alloc, ByteOrder::BigEndian, bytes)
    }
}

/// Converts pairs of bytes, in either order.
#[tactic(auto, using(compact_codec::proofs::ForDecoders::strict_decoding_facts))]
fn from_utf16_bytes(
    alloc: Global,
    order: ByteOrder,
    bytes: &[u8],
) -> Result<CompactString, FromUtf16Error>
    ensures text { IfOk result (λ v. PairsEncode order bytes.now v.text) }
    ensures place { IfOk result IsPlacedBySize }
    ensures succeeds { (text : List ℕ) → PairsEncode order bytes.now text
        → size text ≤ INLINE_CAPACITY → IsOk result }
    ensures cause { IfErr result (IsUtf16BytesRefusal order bytes.now) }
{
    if !utf16_bytes::is_utf16(order, bytes) {
        return Err(FromUtf16Error::Utf16(Utf16Error));
    }
    Ok(from_utf16_bytes_lossy(alloc, order, bytes)?)
}

/// Converts pairs of bytes, replacing what is invalid with U+FFFD.
#[tactic(auto, using(compact_text::proofs::TextFacts::text_facts, crate::proofs::Facts::utf16_facts))]
fn from_utf16_bytes_lossy(
    alloc: Global,
    order: ByteOrder,
    bytes: &[u8],
) -> Result<CompactString, ReserveError>
    ensures { MakesText (utf16_bytes_lossy_text order bytes.now) result }
{
    let mut made = from_pairs_lossy(alloc, order, bytes)?;
    if bytes.len() % 2 != 0 {
        push_or_reserve(&mut made, REPLACEMENT, 0)?;
        return Ok(made);
    }
    Ok(made)
}

/// The same, without an odd last byte.
fn from_pairs_lossy(
    alloc: Global,
    order: ByteOrder,
    bytes: &[u8],
) -> Result<CompactString, ReserveError>
    ensures { MakesText (utf16_lossy_text (units_of order bytes.now)) result }
{
    match order {
        ByteOrder::LittleEndian => from_units_lossy(alloc, LowFirst::new(bytes)),
        ByteOrder::BigEndian => from_units_lossy(alloc, HighFirst::new(bytes)),
    }
}

/// Converts units, replacing each unpaired surrogate with U+FFFD.
#[tactic(auto, using(compact_codec::proofs::ForDecoders::lossy_decoding_facts, crate::proofs::DecodedValues::decoded_part_facts))]
fn from_units_lossy<U: Units>(alloc: Global, units: U) -> Result<CompactString, ReserveError>
    ensures { MakesText (utf16_lossy_text (U.units units)) result }
{
    let count = units.len();
    let mut made = CompactString::default(alloc);
    let mut buffer = [0; BUFFER_LEN];
    let mut at = 0;
    while at < count {
        let filled = encode_into(&mut buffer, units, at);
        at += filled.taken;
        let room = if made.is_heap_allocated() {
            0
        } else {
            utf8_len_hint(units, at)
        };
        let text = unsafe { std::str::from_utf8_unchecked(&buffer[..filled.len]) };
        push_or_reserve(&mut made, text, room)?;
    }
    Ok(made)
}
