//! Arrays of 24 bytes as three words, read and written whole, without loops over bytes.
#![tactic(auto, using(crate::proofs::Facts::words_facts))]

ghost use Rattle.std.specs.Prelude.{◌≡◌, ◌+◌, ◌-◌, ◌*◌, ◌/◌, ◌^◌, ◌≤◌, ◌<◌, ◌∷◌, [], ◌++◌, length, take, drop, slice_index, IsTrue};
ghost use Rattle.std.specs.Str.{IsAscii};
ghost use Rattle.compact_text.specs.WordBytes.{le_number, word_bytes};

/// Loads the eight bytes at `at`.
#[inline(always)]
pub fn load8(bytes: &[u8], at: usize) -> u64
    requires { at + 8 ≤ length bytes.now }
    ensures value { result ≡ le_number (take 8 (drop at bytes.now)) }
    ensures bytes { word_bytes result ≡ take 8 (drop at bytes.now) }
{
    match bytes[at..].first_chunk::<8>() {
        Some(chunk) => u64::from_le_bytes(*chunk),
        None => unreachable!(),
    }
}

/// Returns `true` if two arrays are equal. Compares three words.
#[inline(always)]
pub fn same_array(array: &[u8; 24], other: &[u8; 24]) -> bool
    ensures same { IsTrue result → array.now ≡ other.now }
    ensures found { array.now ≡ other.now → IsTrue result }
{
    (load8(array, 0) == load8(other, 0))
        & (load8(array, 8) == load8(other, 8))
        & (load8(array, 16) == load8(other, 16))
}

/// Loads the four bytes at `at`.
#[inline(always)]
fn load4(bytes: &[u8], at: usize) -> u64
    requires { at + 4 ≤ length bytes.now }
    ensures { result ≡ le_number (take 4 (drop at bytes.now)) }
{
    match bytes[at..].first_chunk::<4>() {
        Some(chunk) => u64::from(u32::from_le_bytes(*chunk)),
        None => unreachable!(),
    }
}

/// Loads the two bytes at `at`.
#[inline(always)]
fn load2(bytes: &[u8], at: usize) -> u64
    requires { at + 2 ≤ length bytes.now }
    ensures { result ≡ le_number (take 2 (drop at bytes.now)) }
{
    match bytes[at..].first_chunk::<2>() {
        Some(chunk) => u64::from(u16::from_le_bytes(*chunk)),
        None => unreachable!(),
    }
}

/// Stores three words as an array.
#[inline(always)]
#[tactic(auto, unfolding(crate::specs::WordBytes::word_bytes))]
pub fn array_of_words(first: u64, second: u64, third: u64) -> [u8; 24]
    ensures { result ≡ word_bytes first ++ word_bytes second ++ word_bytes third }
{
    let mut array = [0u8; 24];
    store8(&mut array[..8], first);
    store8(&mut array[8..16], second);
    store8(&mut array[16..], third);
    array
}

/// Stores a word over eight bytes.
#[inline(always)]
#[tactic(auto, unfolding(crate::specs::WordBytes::word_bytes))]
fn store8(bytes: &mut [u8], word: u64)
    requires { length bytes.old ≡ 8 }
    ensures { bytes.new ≡ word_bytes word }
{
    match bytes.first_chunk_mut::<8>() {
        Some(chunk) => *chunk = word.to_le_bytes(),
        None => unreachable!(),
    }
}

/// Returns the word without its first `count` bytes. Shifts by half of them twice, since no shift may be by all 64
/// bits.
#[inline(always)]
fn without_bytes(word: u64, count: usize) -> u64
    requires { count ≤ 8 }
    ensures { result ≡ word / 2 ^ (8 * count) }
{
    (word >> (4 * count)) >> (4 * count)
}

/// Returns the second eight bytes of a text, or the fewer that follow the first eight. Reads the last eight of at most
/// 16 bytes, and shifts out those before the eighth.
#[inline(always)]
pub fn second_word(text: &[u8]) -> u64
    requires { 8 ≤ length text.now }
    ensures { result ≡ le_number (take 8 (drop 8 text.now)) }
{
    let at = (text.len() - 8).min(8);
    without_bytes(load8(text, at), 8 - at)
}

/// Returns the bytes after the first sixteen, at most eight: the last eight of the text, without those before the
/// sixteenth.
#[inline(always)]
pub fn third_word(text: &[u8]) -> u64
    requires long_enough { 8 ≤ length text.now }
    requires most { length text.now ≤ 24 }
    ensures { result ≡ le_number (drop 16 text.now) }
{
    let len = text.len();
    let count = len.saturating_sub(16);
    without_bytes(load8(text, len - 8), 8 - count)
}

/// Loads at most eight bytes, by a read from the start and one that ends at the end; both agree where they overlap.
#[inline(always)]
pub fn load_up_to_8(text: &[u8]) -> u64
    requires { length text.now ≤ 8 }
    ensures { result ≡ le_number text.now }
{
    let len = text.len();
    if len >= 4 {
        load4(text, 0) | (load4(text, len - 4) << (8 * (len - 4)))
    } else if len >= 2 {
        load2(text, 0) | (load2(text, len - 2) << (8 * (len - 2)))
    } else if len == 1 {
        u64::from(text[0])
    } else {
        0
    }
}

/// Returns the last byte, by its word.
#[inline(always)]
pub fn last_byte(array: &[u8; 24]) -> usize
    ensures { result ≡ slice_index array.now 23 }
{
    usize::from(high_byte(load8(array, 16)))
}

/// The highest bit of each byte of a word.
const HIGH_BITS: u64 = 0x8080_8080_8080_8080;

/// Returns `true` if the first 23 bytes are ASCII, by three words and a mask.
#[inline(always)]
pub fn first_23_are_ascii(array: &[u8; 24]) -> bool
    ensures { IsTrue result → IsAscii (take 23 array.now) }
{
    (load8(array, 0) & HIGH_BITS == 0)
        & (load8(array, 8) & HIGH_BITS == 0)
        & (load8(array, 16) % 0x100_0000_0000_0000 & HIGH_BITS == 0)
}

/// Returns the last byte of a word.
#[inline(always)]
pub fn high_byte(word: u64) -> u8
    ensures { drop 7 (word_bytes word) ≡ result ∷ [] }
{
    (word >> 56) as u8
}
