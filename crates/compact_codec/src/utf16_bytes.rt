//! Bytes read as UTF-16, two bytes a unit; a byte order mark is a character (Unicode Standard, 3.10).
#![tactic(auto, using(crate::proofs::Facts::utf16_bytes_facts))]

ghost use Rattle.std.specs.Prelude.{◌≡◌, ◌↔◌, ◌<◌, ℕ, slice_index, IsTrue};
ghost use Rattle.compact_codec.specs.declared.utf16_bytes.ByteOrder.TheVariants.{LittleEndian, BigEndian};
ghost use Rattle.compact_codec.specs.Utf16Bytes.{unit_of, units_of, IsUtf16Bytes, PairsAreTheUnits, Utf16BytesLossyTextIsUnique, Utf16BytesLossyTextOfText};

use crate::utf16::{Units, are_paired};
use std::simd::prelude::*;

/// The order of the two bytes of a unit.
#[derive(Clone, Copy, Debug, PartialEq, Eq)]
pub enum ByteOrder {
    /// The low byte first.
    LittleEndian,
    /// The high byte first.
    BigEndian,
}

impl ByteOrder {
    /// Combines two bytes into a unit.
    ///
    /// # Examples
    ///
    /// `3D D8` is D83D in little-endian order.
    #[inline]
    pub fn code_unit(self, first: u8, second: u8) -> u16
        ensures { result ≡ unit_of self first second }
    {
        match self {
            ByteOrder::LittleEndian => u16::from(first) + u16::from(second) * 256,
            ByteOrder::BigEndian => u16::from(first) * 256 + u16::from(second),
        }
    }
}

/// Pairs of bytes, the low byte first. An odd last byte is no unit.
#[derive(Clone, Copy)]
pub struct LowFirst<'a> {
    bytes: &'a [u8],
    ghost fit: { (i : ℕ) → slice_index bytes.now i < 256 },
}

impl<'a> LowFirst<'a> {
    /// Reads pairs of bytes.
    #[inline]
    pub fn new(bytes: &'a [u8]) -> Self
        ensures { result.bytes.now ≡ bytes.now }
    {
        LowFirst { bytes }
    }
}

impl Units for LowFirst<'_> {
    ghost units = { λ s. units_of LittleEndian s.bytes.now };

    #[inline]
    fn len(self) -> usize {
        self.bytes.len() / 2
    }

    #[inline]
    fn unit(self, at: usize) -> u16 {
        ByteOrder::LittleEndian.code_unit(self.bytes[2 * at], self.bytes[2 * at + 1])
    }

    #[inline]
    fn block(self, at: usize) -> u16x16 {
        u16x16::from_le_bytes(u8x32::from_slice(&self.bytes[2 * at..]))
    }
}

/// Pairs of bytes, the high byte first. An odd last byte is no unit.
#[derive(Clone, Copy)]
pub struct HighFirst<'a> {
    bytes: &'a [u8],
    ghost fit: { (i : ℕ) → slice_index bytes.now i < 256 },
}

impl<'a> HighFirst<'a> {
    /// Reads pairs of bytes.
    #[inline]
    pub fn new(bytes: &'a [u8]) -> Self
        ensures { result.bytes.now ≡ bytes.now }
    {
        HighFirst { bytes }
    }
}

impl Units for HighFirst<'_> {
    ghost units = { λ s. units_of BigEndian s.bytes.now };

    #[inline]
    fn len(self) -> usize {
        self.bytes.len() / 2
    }

    #[inline]
    fn unit(self, at: usize) -> u16 {
        ByteOrder::BigEndian.code_unit(self.bytes[2 * at], self.bytes[2 * at + 1])
    }

    #[inline]
    fn block(self, at: usize) -> u16x16 {
        let swapped = u16x16::from_le_bytes(u8x32::from_slice(&self.bytes[2 * at..]));
        (swapped << u16x16::splat(8)) | (swapped >> u16x16::splat(8))
    }
}

/// Returns `true` if the bytes encode a text: no surrogate is unpaired, and no byte is left over.
///
/// # Examples
///
/// In little-endian order `41 00` is valid, `41 00 42` is not.
pub fn is_utf16(order: ByteOrder, bytes: &[u8]) -> bool
    ensures { IsTrue result ↔ IsUtf16Bytes order bytes.now }
{
    if bytes.len() % 2 != 0 {
        return false;
    }
    match order {
        ByteOrder::LittleEndian => are_paired(LowFirst::new(bytes)),
        ByteOrder::BigEndian => are_paired(HighFirst::new(bytes)),
    }
}

/// A law: units written as bytes read back as those units, and pairs of bytes are those of their units.
pub fn pairs_are_the_units()
    ensures { PairsAreTheUnits }
{}

/// A law: bytes have exactly one lossy text: that of their units, with U+FFFD at the end for an odd last byte.
pub fn bytes_have_one_lossy_text()
    ensures { Utf16BytesLossyTextIsUnique }
{}

/// A law: the lossy text of the bytes of a text's units is the text.
pub fn a_text_is_its_own_lossy_text()
    ensures { Utf16BytesLossyTextOfText }
{}
