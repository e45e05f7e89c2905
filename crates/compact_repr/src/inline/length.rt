//! Packed bytes: reading them, writing the length, and appending and removing at the end.
#![tactic(auto, using(crate::proofs::PackedFacts::packed_facts))]

ghost use Rattle.std.specs.Prelude.{◌≡◌, ◌+◌, ◌*◌, ◌^◌, ◌≤◌, ◌<◌, [], ◌∷◌, ◌++◌, length, take, bit_or, nat_lt, false, None, IfSome, OnSome, if◌then◌else◌, IsTrue, ◌↔◌, MatchOption};
ghost use Rattle.std.specs.Str.{IsUtf8};
ghost use Rattle.compact_repr.specs.Words.{INLINE_CAPACITY, text_of};
ghost use Rattle.compact_repr.specs.Packed.{IsPackedFor, packed_len, packed_text, packed_bytes};

use crate::inline::INLINE_CAPACITY;
use compact_text::slices;
use compact_text::words::{
    array_of_words, first_23_are_ascii, last_byte, load_up_to_8, load8, second_word, third_word,
};

/// The largest last byte of a packed text: after a text of 23 bytes.
const MAX_LAST_BYTE: usize = 215;

/// Returns `true` if the bytes pack a text. Fast for ASCII; otherwise validates the bytes.
#[inline(always)]
pub fn is_packed(bytes: &[u8; 24]) -> bool
    ensures { IsTrue result ↔ IsPackedFor bytes.now (packed_text bytes.now) }
{
    let last = last_byte(bytes);
    if last > MAX_LAST_BYTE {
        return false;
    }
    if first_23_are_ascii(bytes) && (last < 128 || last >= 192) {
        return true;
    }
    // A copy, so that the caller's bytes need no address.
    let copy = *bytes;
    match std::str::from_utf8(&copy[..decode_len(&copy)]) {
        Ok(_) => true,
        Err(_) => false,
    }
}

/// Returns the length that the last byte encodes. Branch-free. Reads one byte, as `write_len` writes it: a read of the
/// whole word would wait for that write.
#[inline(always)]
pub fn decode_len(bytes: &[u8; 24]) -> usize
    requires { packed_len bytes.now ≤ INLINE_CAPACITY }
    ensures { result ≡ packed_len bytes.now }
{
    let len = usize::from(bytes[INLINE_CAPACITY - 1]).wrapping_sub(192);
    if len < INLINE_CAPACITY {
        len
    } else {
        INLINE_CAPACITY
    }
}

/// Returns the length that the last byte encodes if it is below 24, by a branch: an edit that writes at the end would
/// wait for the comparison of `decode_len`.
#[inline(always)]
pub fn len_below_24(bytes: &[u8; 24]) -> Option<usize>
    requires { packed_len bytes.now ≤ INLINE_CAPACITY }
    ensures { MatchOption result (packed_len bytes.now ≡ INLINE_CAPACITY)
        (λ n. (n ≡ packed_len bytes.now) × (n < INLINE_CAPACITY)) }
{
    let count = usize::from(bytes[INLINE_CAPACITY - 1]).wrapping_sub(192);
    if count < INLINE_CAPACITY {
        Some(count)
    } else {
        None
    }
}

/// Writes the length of the text, which is at the front. Does nothing at 24 bytes, whose last byte is text.
#[inline(always)]
pub fn write_len(bytes: &mut [u8; 24], len: usize)
    requires fits { len ≤ INLINE_CAPACITY }
    requires text { IsUtf8 (take len bytes.old) }
    ensures { IsPackedFor bytes.new (text_of (take len bytes.old)) }
{
    if len < INLINE_CAPACITY {
        bytes[INLINE_CAPACITY - 1] = 192 + len as u8;
    }
}

/// Appends `text` if it fits. Returns whether it did; otherwise changes nothing. The length is written first: the 24th
/// byte of a text then overwrites it.
#[inline(always)]
#[tactic(auto, using(crate::proofs::PackedFacts::packed_facts, compact_text::proofs::TextFacts::empty_facts))]
pub fn push_text(bytes: &mut [u8; 24], text: &str) -> bool
    requires { IsPackedFor bytes.old (packed_text bytes.old) }
    ensures fits { IsTrue result ↔ (packed_len bytes.old + length text.now ≤ INLINE_CAPACITY) }
    ensures pushed { IsTrue result → IsPackedFor bytes.new (packed_text bytes.old ++ text_of text.now) }
    ensures full { result ≡ false → bytes.new ≡ bytes.old }
{
    let Some(len) = len_below_24(bytes) else {
        return text.is_empty();
    };
    if text.len() > INLINE_CAPACITY - len {
        return false;
    }
    let source = text.as_bytes();
    bytes[INLINE_CAPACITY - 1] = 192 + (len + source.len()) as u8;
    slices::write_short(bytes, len, source);
    true
}

/// Appends an ASCII byte to a text of `len` bytes, less than 24. The last byte, for which the next edit waits, is raised by
/// one, and the length is not encoded again. The 24th byte of a text then overwrites it.
#[inline(always)]
pub fn push_ascii(bytes: &mut [u8; 24], len: usize, byte: u8)
    requires packed { IsPackedFor bytes.old (packed_text bytes.old) }
    requires len { len ≡ packed_len bytes.old }
    requires room { len < INLINE_CAPACITY }
    requires ascii { byte < 128 }
    ensures { IsPackedFor bytes.new (packed_text bytes.old ++ byte ∷ []) }
{
    bytes[INLINE_CAPACITY - 1] += 1;
    bytes[len] = byte;
}

/// Removes and returns the last byte of a text of 1 to 23 bytes if it is ASCII; otherwise changes nothing. The last byte
/// is lowered by one, and the length is not encoded again.
#[inline(always)]
pub fn pop_ascii(bytes: &mut [u8; 24]) -> Option<u8>
    requires { IsPackedFor bytes.old (packed_text bytes.old) }
    ensures popped { IfSome result (λ byte. packed_text bytes.old ≡ packed_text bytes.new ++ byte ∷ []) }
    ensures packed { OnSome result (IsPackedFor bytes.new (packed_text bytes.new)) }
    ensures others { result ≡ None → bytes.new ≡ bytes.old }
{
    let last = usize::from(bytes[INLINE_CAPACITY - 1]);
    if last <= 192 || last > MAX_LAST_BYTE {
        return None;
    }
    let byte = bytes[last - 193];
    if !byte.is_ascii() {
        return None;
    }
    bytes[INLINE_CAPACITY - 1] -= 1;
    Some(byte)
}

/// Returns the last word with the length as its last byte, unless the text has 24 bytes.
#[inline(always)]
fn with_length(word: u64, len: usize) -> u64
    requires { len ≤ INLINE_CAPACITY }
    ensures { result ≡ (if nat_lt len INLINE_CAPACITY then bit_or word ((192 + len) * 2 ^ 56) else word) }
{
    if len < INLINE_CAPACITY {
        word | ((192 + len as u64) << 56)
    } else {
        word
    }
}

/// Packs `text`: its bytes, zeros and the length, or its 24 bytes.
///
/// Branch-free on the length from eight bytes on.
#[inline]
pub fn pack(text: &[u8]) -> [u8; 24]
    requires { length text.now ≤ INLINE_CAPACITY }
    ensures { result ≡ packed_bytes text.now }
{
    let len = text.len();
    if len >= 8 {
        array_of_words(
            load8(text, 0),
            second_word(text),
            with_length(third_word(text), len),
        )
    } else {
        array_of_words(load_up_to_8(text), 0, with_length(0, len))
    }
}
