//! An inline buffer: a text of at most 24 bytes, packed into the value itself.
#![tactic(auto, using(crate::proofs::PackedFacts::packed_facts))]

ghost use Rattle.std.specs.Prelude.{◌≡◌, ◌+◌, ◌-◌, ◌≤◌, ℕ, List, [], ◌∷◌, ◌++◌, length, false, IsTrue, ◌↔◌, MatchOption};
ghost use Rattle.compact_text.specs.Text.{room_for_char};
ghost use Rattle.compact_repr.specs.Words.{INLINE_CAPACITY, size, utf8, text_of, IsText, IsBoundary, text_before, replaced_text};
ghost use Rattle.compact_repr.specs.Packed.{IsPackedFor};
ghost use Rattle.compact_text.specs.Case.{text_in_case};
ghost use Rattle.compact_text.specs.Retain.{RetainsCharsTo};

mod compare;
mod length;

use compact_text::slices::{self, Case};
use compact_text::str_parts::split_last;
use length::{
    decode_len, is_packed, len_below_24, pack, pop_ascii, push_ascii, push_text, write_len,
};
use std::marker::Model;

/// The most bytes of an inline text.
pub const INLINE_CAPACITY: usize = 24;

/// A contract sees the text. The last byte is 192 and the length, unless the text has 24 bytes: then it is the text's
/// own, at most 191. The bytes between the text and the last byte are unspecified.
#[derive(Drop)]
pub struct InlineBuffer {
    bytes: [u8; 24],
}

impl Model for InlineBuffer {
    ghost use Rattle.std.specs.Prelude.{ℕ, List};
    ghost use Rattle.compact_repr.specs.Packed.{IsPackedFor, packed_text};

    ghost Value = { List ℕ };

    ghost view = { λ b. packed_text b.bytes };

    ghost invariant = { λ b. IsPackedFor b.bytes (packed_text b.bytes) };
}

impl InlineBuffer {
    /// Creates an empty text.
    #[inline]
    pub fn empty() -> Self
        ensures { result ≡ [] }
    {
        let mut bytes = [0; INLINE_CAPACITY];
        write_len(&mut bytes, 0);
        InlineBuffer { bytes }
    }

    /// Copies `text`.
    #[inline]
    pub fn new(text: &str) -> Self
        requires { length text.now ≤ INLINE_CAPACITY }
        ensures { result ≡ text_of text.now }
    {
        InlineBuffer {
            bytes: pack(text.as_bytes()),
        }
    }

    /// Returns a copy.
    #[inline]
    pub fn clone(&self) -> Self
        ensures { result ≡ self.now }
    {
        InlineBuffer { bytes: self.bytes }
    }

    /// The length in bytes.
    #[inline]
    pub fn len(&self) -> usize
        ensures value { result ≡ size self.now }
        ensures fits { size self.now ≤ INLINE_CAPACITY }
        ensures text { IsText self.now }
    {
        decode_len(&self.bytes)
    }

    /// Returns the text.
    #[inline]
    pub fn as_str(&self) -> &str
        ensures bytes { result.now ≡ utf8 self.now }
        ensures text { text_of result.now ≡ self.now }
    {
        unsafe { std::str::from_utf8_unchecked(&self.bytes[..decode_len(&self.bytes)]) }
    }

    /// Appends `text` if it fits. Returns whether it did; otherwise changes nothing.
    #[inline]
    pub fn try_push_str(&mut self, text: &str) -> bool
        ensures fits { IsTrue result ↔ (size self.old + length text.now ≤ INLINE_CAPACITY) }
        ensures pushed { IsTrue result → self.new ≡ self.old ++ text_of text.now }
        ensures full { result ≡ false → self.new ≡ self.old }
    {
        push_text(&mut self.bytes, text)
    }

    /// Appends `character` if it is ASCII and fits, or if four bytes are free. Returns whether it did; otherwise changes
    /// nothing.
    #[inline(always)]
    pub fn try_push(&mut self, character: char) -> bool
        ensures fits { IsTrue result ↔ (size self.old + room_for_char character ≤ INLINE_CAPACITY) }
        ensures pushed { IsTrue result → self.new ≡ self.old ++ character ∷ [] }
        ensures full { result ≡ false → self.new ≡ self.old }
    {
        let Some(len) = len_below_24(&self.bytes) else {
            return false;
        };
        if character.is_ascii() {
            push_ascii(&mut self.bytes, len, character as u8);
            return true;
        }
        let Some(end) = slices::try_write_char(&mut self.bytes, len, character) else {
            return false;
        };
        write_len(&mut self.bytes, end);
        true
    }

    /// Replaces the bytes from one boundary to another with `text` if the result fits. Returns whether it did;
    /// otherwise changes nothing.
    #[inline(always)]
    pub fn try_replace_range(&mut self, start: usize, end: usize, text: &str) -> bool
        requires order { start ≤ end }
        requires first { IsBoundary self.old start }
        requires last { IsBoundary self.old end }
        ensures fits { IsTrue result ↔ (size self.old + (length text.now - (end - start)) ≤ INLINE_CAPACITY) }
        ensures replaced { IsTrue result
            → self.new ≡ replaced_text self.old start end (text_of text.now) }
        ensures full { result ≡ false → self.new ≡ self.old }
    {
        let old_len = decode_len(&self.bytes);
        let len = old_len - (end - start) + text.len();
        if len > INLINE_CAPACITY {
            return false;
        }
        slices::splice_short(&mut self.bytes, old_len, start, end, text.as_bytes());
        write_len(&mut self.bytes, len);
        true
    }

    /// Removes the bytes from one boundary to another.
    #[inline(always)]
    pub fn remove_range(&mut self, start: usize, end: usize)
        requires order { start ≤ end }
        requires first { IsBoundary self.old start }
        requires last { IsBoundary self.old end }
        ensures { self.new ≡ replaced_text self.old start end [] }
    {
        let len = decode_len(&self.bytes);
        slices::remove_range_short(&mut self.bytes, len, start, end);
        write_len(&mut self.bytes, len - (end - start));
    }

    /// Removes and returns the last character, or returns `None` if the text is empty.
    #[inline]
    pub fn pop(&mut self) -> Option<char>
        ensures { MatchOption result ((self.old ≡ []) × (self.new ≡ self.old))
            (λ c. self.old ≡ self.new ++ c ∷ []) }
    {
        if let Some(byte) = pop_ascii(&mut self.bytes) {
            return Some(char::from(byte));
        }
        let (index, character) = split_last(self.as_str())?;
        self.truncate(index);
        Some(character)
    }

    /// Replaces the whole text with `text` if it fits. Returns whether it did; otherwise changes nothing.
    #[inline]
    pub fn try_assign(&mut self, text: &str) -> bool
        ensures fits { IsTrue result ↔ (length text.now ≤ INLINE_CAPACITY) }
        ensures assigned { IsTrue result → self.new ≡ text_of text.now }
        ensures full { result ≡ false → self.new ≡ self.old }
    {
        if text.len() > INLINE_CAPACITY {
            return false;
        }
        *self = InlineBuffer::new(text);
        true
    }

    /// Truncates the text to its first `len` bytes, which end at a boundary.
    #[inline]
    pub fn truncate(&mut self, len: usize)
        requires { IsBoundary self.old len }
        ensures { self.new ≡ text_before self.old len }
    {
        write_len(&mut self.bytes, len);
    }

    /// Removes all characters.
    #[inline]
    pub fn clear(&mut self)
        ensures { self.new ≡ [] }
    {
        write_len(&mut self.bytes, 0);
    }

    /// Removes all characters, and writes zeros over all bytes but the last, which holds the length 0.
    pub fn zeroize(&mut self)
        ensures { self.new ≡ [] }
    {
        slices::fill_zero(&mut self.bytes);
        write_len(&mut self.bytes, 0);
    }

    /// Converts ASCII characters to upper or lower case, among all 24 bytes: a length is not ASCII. Not inlined: on a value
    /// in registers the loop would be unrolled, byte by byte.
    #[inline(never)]
    pub fn convert_case(&mut self, case: Case)
        ensures { self.new ≡ text_in_case case self.old }
    {
        slices::convert_case(&mut self.bytes, case);
    }

    /// Keeps the characters for which `keep` returns `true`; calls it once for each, in order.
    #[inline]
    pub fn retain<F: FnMut(char) -> bool>(&mut self, keep: &mut F)
        requires { F.IsAlwaysCallable keep.old }
        ensures text { RetainsCharsTo F.FnMut keep.old self.old self.new keep.new }
        ensures callable { F.IsAlwaysCallable keep.new }
    {
        let len = decode_len(&self.bytes);
        let kept = slices::retain(&mut self.bytes, len, keep);
        write_len(&mut self.bytes, kept);
    }

    /// Returns the 24 bytes.
    #[inline]
    pub fn packed(&self) -> [u8; 24]
        ensures { IsPackedFor result self.now }
    {
        self.bytes
    }

    /// Unpacks 24 bytes, or returns `None` if they do not pack a text.
    #[inline]
    pub fn from_packed(bytes: &[u8; 24]) -> Option<Self>
        ensures { MatchOption result ((t : List ℕ) → ¬ (IsPackedFor bytes.now t))
            (λ t. IsPackedFor bytes.now t) }
    {
        if !is_packed(bytes) {
            return None;
        }
        Some(InlineBuffer { bytes: *bytes })
    }
}
