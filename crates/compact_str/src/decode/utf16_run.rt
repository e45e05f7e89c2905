//! Runs of characters of one width, by SIMD.
ghost use Rattle.std.specs.Prelude.{if◌then◌else◌, ◌≡◌, ◌+◌, ◌*◌, ◌/◌, ◌%◌, ◌^◌, ◌<◌, ◌≤◌, ◌==◌, ◌||◌, [], ◌∷◌, ◌++◌, take, map, nat_lt, nat_le, slice_index, IsTrue};
ghost use Rattle.std.specs.List.{position_or_len, flat_map};
ghost use Rattle.std.specs.Char.{IsScalar};
ghost use Rattle.std.specs.Int.Count.{count_trailing_zeros};
ghost use Rattle.std.specs.Str.{encode_utf8_all};
ghost use Rattle.std.specs.Simd.Lanes.{Each1};

use std::simd::prelude::*;

/// The number of units that are tested and written at a time.
pub const BLOCK: usize = 16;

/// The bits that the first four units of a block have only if these are not all ASCII.
const FIRST_FOUR: [u16; BLOCK] = [
    0xFF80, 0xFF80, 0xFF80, 0xFF80, 0, 0, 0, 0, 0, 0, 0, 0, 0, 0, 0, 0,
];

/// Returns `true` if the first four units are ASCII. Tests all four at once, since a single ASCII character is common
/// in text of other scripts.
#[inline(always)]
pub fn begins_with_ascii(block: u16x16) -> bool
    ensures { IsTrue result → slice_index block 0 < 128 }
{
    (block & u16x16::from_array(FIRST_FOUR)).reduce_or() == 0
}

/// Writes the ASCII units at the front of the block at `at`, and returns their number. Writes a whole block, to avoid a
/// loop.
#[inline(always)]
pub fn write_ascii(buffer: &mut [u8; 256], at: usize, block: u16x16) -> usize
    requires room { at + 16 ≤ 256 }
    requires first { slice_index block 0 < 128 }
    ensures some { (0 < result) × (result ≤ 16) }
    ensures own { Each1 (λ u. IsScalar u × (u < 2 ^ 16)) (take result block) }
    ensures bytes { take (at + result) buffer.new ≡ take at buffer.old ++ encode_utf8_all (take result block) }
{
    let front = &mut buffer[at..at + BLOCK];
    low_bytes(block).copy_to_slice(front);
    ascii_count(block)
}

/// Returns each unit modulo 128, as a byte.
#[inline(always)]
fn low_bytes(block: u16x16) -> u8x16
    ensures { result ≡ map (λ u. u % 128) block }
{
    (block & u16x16::splat(0x7F)).cast()
}

/// Returns the number of ASCII units before the first other one.
#[inline(always)]
fn ascii_count(block: u16x16) -> usize
    ensures { result ≡ position_or_len (λ u. nat_le 128 u) block }
{
    first_set(block.simd_ge(u16x16::splat(0x80)).to_bitmask())
}

/// Returns `true` if the first four units are characters of two bytes.
#[inline(always)]
pub fn begins_with_two_byte(block: u16x16) -> bool
    ensures { IsTrue result → (128 ≤ slice_index block 0) × (slice_index block 0 < 2048) }
{
    let first = block.extract::<0, 4>();
    let others = first.simd_lt(u16x4::splat(0x80)) | first.simd_ge(u16x4::splat(0x800));
    others.to_bitmask() == 0
}

/// Writes the characters of two bytes at the front of the block at `at`, and returns their number. Writes a whole
/// block, to avoid a loop.
#[inline(always)]
pub fn write_two_byte(buffer: &mut [u8; 256], at: usize, block: u16x16) -> usize
    requires room { at + 32 ≤ 256 }
    requires first { (128 ≤ slice_index block 0) × (slice_index block 0 < 2048) }
    ensures some { (0 < result) × (result ≤ 16) }
    ensures own { Each1 (λ u. IsScalar u × (u < 2 ^ 16)) (take result block) }
    ensures bytes { take (at + 2 * result) buffer.new ≡ take at buffer.old ++ encode_utf8_all (take result block) }
{
    let front = &mut buffer[at..at + 2 * BLOCK];
    two_bytes(block).copy_to_slice(front);
    two_byte_count(block)
}

/// Returns each unit modulo 2048, as two bytes.
#[inline(always)]
fn two_bytes(block: u16x16) -> u8x32
    ensures { result ≡ flat_map (λ u. (192 + u / 64 % 32) ∷ (128 + u % 64) ∷ []) block }
{
    let first = (block >> u16x16::splat(6)) & u16x16::splat(31);
    let second = (block & u16x16::splat(63)) << u16x16::splat(8);
    (u16x16::splat(0x80C0) + first + second).to_le_bytes()
}

/// Returns the number of characters of two bytes before the first other unit.
#[inline(always)]
fn two_byte_count(block: u16x16) -> usize
    ensures { result ≡ position_or_len (λ u. nat_lt u 128 || nat_le 2048 u) block }
{
    let others = block.simd_lt(u16x16::splat(0x80)) | block.simd_ge(u16x16::splat(0x800));
    first_set(others.to_bitmask())
}

/// Returns `true` if the first four units are characters of three bytes.
#[inline(always)]
pub fn begins_with_three_byte(block: u16x16) -> bool
    ensures { IsTrue result → Each1 (λ u. (2048 ≤ u) × IsScalar u × (u < 2 ^ 16)) (take 4 block) }
{
    let high = block.extract::<0, 4>() >> u16x4::splat(11);
    let others = high.simd_eq(u16x4::splat(0)) | high.simd_eq(u16x4::splat(27));
    others.to_bitmask() == 0
}

/// Writes the first four units of the block at `at`, as characters of three bytes.
#[inline(always)]
pub fn write_three_byte(buffer: &mut [u8; 256], at: usize, block: u16x16)
    requires room { at + 16 ≤ 256 }
    requires first { Each1 (λ u. (2048 ≤ u) × IsScalar u × (u < 2 ^ 16)) (take 4 block) }
    ensures own { Each1 (λ u. IsScalar u × (u < 2 ^ 16)) (take 4 block) }
    ensures bytes { take (at + 12) buffer.new ≡ take at buffer.old ++ encode_utf8_all (take 4 block) }
{
    let front = &mut buffer[at..at + 16];
    three_bytes(block.extract::<0, 4>()).copy_to_slice(front);
}

/// Returns each unit as three bytes, and then four zeros.
#[inline(always)]
fn three_bytes(units: u16x4) -> u8x16
    ensures { take 12 result
        ≡ flat_map (λ u. (224 + u / 4096) ∷ (128 + u / 64 % 64) ∷ (128 + u % 64) ∷ []) units }
{
    let wide: u32x4 = units.cast();
    let second = ((wide >> u32x4::splat(6)) & u32x4::splat(63)) << u32x4::splat(8);
    let third = (wide & u32x4::splat(63)) << u32x4::splat(16);
    let words = u32x4::splat(0x0080_80E0) + (wide >> u32x4::splat(12)) + second + third;
    words
        .to_le_bytes()
        .swizzle([0, 1, 2, 4, 5, 6, 8, 9, 10, 12, 13, 14, 3, 7, 11, 15])
}

/// Returns the index of the lowest bit that is set, or 16 if there is none.
#[inline(always)]
fn first_set(mask: u64) -> usize
    ensures { result ≡ (if mask == 0 then 16 else count_trailing_zeros 64 mask) }
{
    if mask == 0 {
        BLOCK
    } else {
        mask.trailing_zeros() as usize
    }
}
