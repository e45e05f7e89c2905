//! A heap buffer: a text in a vector of bytes, whose capacity is the vector's.
#![tactic(auto, using(compact_text::proofs::TextFacts::text_facts, crate::proofs::Facts::heap_facts))]

ghost use Rattle.std.specs.Prelude.{◌≡◌, ◌+◌, ◌-◌, ◌≤◌, ◌<◌, ◌^◌, [], ◌∷◌, ◌++◌, length, false, IfOk, OnOk, OnErr, IsTrue, ◌↔◌, MatchOption};
ghost use Rattle.std.specs.String.{string_bytes, string_capacity};
ghost use Rattle.compact_repr.specs.Words.{size, utf8, text_of, IsText, IsBoundary, text_before, substring, replaced_text};
ghost use Rattle.compact_text.specs.Text.{room_for_char};
ghost use Rattle.compact_text.specs.Case.{text_in_case};
ghost use Rattle.compact_text.specs.Retain.{RetainsCharsTo};

use compact_text::slices::Case;
use compact_text::str_parts::split_last;
use compact_text::{slices, vec};
use std::alloc::{AllocError, Global};
use std::marker::Model;

/// The bytes of the vector are the text. Its spare capacity may hold old bytes.
///
/// Uses only calls that specify the vector's capacity exactly, so no field is needed for it.
#[derive(Drop)]
pub struct HeapBuffer {
    bytes: Vec<u8>,
}

impl Model for HeapBuffer {
    ghost use Rattle.std.specs.Str.{IsUtf8};
    ghost use Rattle.std.specs.Vec.{vec_capacity};
    ghost use Rattle.compact_repr.specs.Words.{text_of, HeapText};

    ghost Value = { HeapText };

    ghost view = { λ b. record { text = text_of b.bytes.items; capacity = vec_capacity b.bytes } };

    ghost invariant = { λ b. IsUtf8 b.bytes.items };
}

impl HeapBuffer {
    /// Creates an empty text with room for `capacity` bytes, none of which is touched.
    ///
    /// # Errors
    ///
    /// Returns `AllocError` if no memory is found.
    #[inline]
    pub fn with_capacity(alloc: Global, capacity: usize) -> Result<Self, AllocError>
        ensures { IfOk result (λ b. b ≡ record { text = []; capacity = capacity }) }
    {
        let bytes = Vec::with_capacity(alloc, capacity)?;
        Ok(HeapBuffer { bytes })
    }

    /// Copies `text` into a new buffer of `capacity` bytes, at least its length.
    ///
    /// # Errors
    ///
    /// Returns `AllocError` if no memory is found.
    #[inline(always)]
    pub fn copy_of(alloc: Global, text: &str, capacity: usize) -> Result<Self, AllocError>
        requires { length text.now ≤ capacity }
        ensures { IfOk result (λ b. b ≡ record { text = text_of text.now; capacity = capacity }) }
    {
        let bytes = vec::copied(alloc, text.as_bytes(), capacity)?;
        Ok(HeapBuffer { bytes })
    }

    /// Returns the buffer, whose text has `len` bytes. Nothing then waits for the length in memory, which was just written.
    #[inline(always)]
    pub fn with_known_len(mut self, len: usize) -> Self
        requires { size self.text ≡ len }
        ensures { result ≡ self }
    {
        vec::shorten(&mut self.bytes, len);
        self
    }

    /// Reuses the buffer of `text`, with its capacity.
    pub fn from_string(text: String) -> Self
        ensures { result
            ≡ record { text = text_of (string_bytes text); capacity = string_capacity text } }
    {
        let bytes = text.into_bytes();
        HeapBuffer { bytes }
    }

    /// The length in bytes.
    #[inline]
    pub fn len(&self) -> usize
        ensures value { result ≡ size self.now.text }
        ensures fits { size self.now.text ≤ self.now.capacity }
        ensures small { result < 2 ^ 63 }
        ensures text { IsText self.now.text }
    {
        self.bytes.len()
    }

    /// The capacity in bytes.
    #[inline]
    pub fn capacity(&self) -> usize
        ensures { result ≡ self.now.capacity }
    {
        self.bytes.capacity()
    }

    /// Returns `true` if `additional` more bytes fit.
    #[inline]
    pub fn has_room(&self, additional: usize) -> bool
        ensures { IsTrue result ↔ (size self.now.text + additional ≤ self.now.capacity) }
    {
        additional <= self.bytes.capacity() - self.bytes.len()
    }

    /// Returns the text.
    #[inline]
    pub fn as_str(&self) -> &str
        ensures bytes { result.now ≡ utf8 self.now.text }
        ensures text { text_of result.now ≡ self.now.text }
    {
        unsafe { std::str::from_utf8_unchecked(self.bytes.as_slice()) }
    }

    /// Reserves room for `capacity` bytes in all.
    ///
    /// # Errors
    ///
    /// Returns `AllocError` if no memory is found; the buffer is then unchanged.
    #[inline]
    pub fn grow(&mut self, capacity: usize) -> Result<(), AllocError>
        requires { self.old.capacity ≤ capacity }
        ensures ok { OnOk result (self.new ≡ record { text = self.old.text; capacity = capacity }) }
        ensures err { OnErr result (self.new ≡ self.old) }
    {
        self.bytes.reserve_exact(capacity - self.bytes.len())
    }

    /// Appends `text` if it fits, without allocating. Returns whether it did; otherwise changes nothing.
    ///
    /// Always inlined, so that a text known to be short calls nothing.
    #[inline(always)]
    pub fn try_push_str(&mut self, text: &str) -> bool
        ensures fits { IsTrue result ↔ (size self.old.text + length text.now ≤ self.old.capacity) }
        ensures pushed { IsTrue result
            → self.new ≡ record {
              text = self.old.text ++ text_of text.now;
              capacity = self.old.capacity;
            } }
        ensures full { result ≡ false → self.new ≡ self.old }
    {
        if !self.has_room(text.len()) {
            return false;
        }
        vec::append_slice(&mut self.bytes, text.as_bytes());
        true
    }

    /// Appends `character` if it is ASCII and fits, or if four bytes are free. Returns whether it did; otherwise changes
    /// nothing.
    #[inline(always)]
    pub fn try_push(&mut self, character: char) -> bool
        ensures fits { IsTrue result ↔ (size self.old.text + room_for_char character ≤ self.old.capacity) }
        ensures pushed { IsTrue result
            → self.new ≡ record {
              text = self.old.text ++ character ∷ [];
              capacity = self.old.capacity;
            } }
        ensures full { result ≡ false → self.new ≡ self.old }
    {
        if !vec::try_append_char(&mut self.bytes, character) {
            return false;
        }
        true
    }

    /// Appends the bytes from one boundary to another, for which there must be room.
    pub fn push_within(&mut self, start: usize, end: usize)
        requires order { start ≤ end }
        requires first { IsBoundary self.old.text start }
        requires last { IsBoundary self.old.text end }
        requires room { size self.old.text + (end - start) ≤ self.old.capacity }
        ensures { self.new
            ≡ record {
              text = self.old.text ++ substring self.old.text start end;
              capacity = self.old.capacity;
            } }
    {
        vec::append_within(&mut self.bytes, start, end);
    }

    /// Replaces the bytes from one boundary to another with `text` if the result fits, without allocating. Returns
    /// whether it did; otherwise changes nothing.
    #[inline(always)]
    pub fn try_replace_range(&mut self, start: usize, end: usize, text: &str) -> bool
        requires order { start ≤ end }
        requires first { IsBoundary self.old.text start }
        requires last { IsBoundary self.old.text end }
        ensures fits { IsTrue result
            ↔ (size self.old.text + (length text.now - (end - start)) ≤ self.old.capacity) }
        ensures replaced { IsTrue result
            → self.new ≡ record {
              text = replaced_text self.old.text start end (text_of text.now);
              capacity = self.old.capacity;
            } }
        ensures small { size self.old.text < 2 ^ 63 }
        ensures full { result ≡ false → self.new ≡ self.old }
    {
        let len = self.bytes.len() - (end - start) + text.len();
        if len > self.bytes.capacity() {
            return false;
        }
        vec::splice(&mut self.bytes, start, end, text.as_bytes());
        true
    }

    /// Removes the bytes from one boundary to another.
    #[inline(always)]
    pub fn remove_range(&mut self, start: usize, end: usize)
        requires order { start ≤ end }
        requires first { IsBoundary self.old.text start }
        requires last { IsBoundary self.old.text end }
        ensures { self.new
            ≡ record {
              text = replaced_text self.old.text start end [];
              capacity = self.old.capacity;
            } }
    {
        let len = self.bytes.len();
        slices::remove_range(self.bytes.as_mut_slice(), len, start, end);
        self.bytes.truncate(len - (end - start));
    }

    /// Removes and returns the last character, or returns `None` if the text is empty. Keeps the capacity.
    #[inline]
    pub fn pop(&mut self) -> Option<char>
        ensures { MatchOption result ((self.old.text ≡ []) × (self.new ≡ self.old))
            (λ c. (self.old.text ≡ self.new.text ++ c ∷ []) × (self.new.capacity ≡ self.old.capacity)) }
    {
        if let Some(byte) = vec::pop_ascii(&mut self.bytes) {
            return Some(char::from(byte));
        }
        let (index, character) = split_last(self.as_str())?;
        vec::shorten(&mut self.bytes, index);
        Some(character)
    }

    /// Replaces the whole text with `text` if it fits. Returns whether it did; otherwise changes nothing. Keeps the
    /// capacity.
    #[inline]
    pub fn try_assign(&mut self, text: &str) -> bool
        ensures fits { IsTrue result ↔ (length text.now ≤ self.old.capacity) }
        ensures assigned { IsTrue result
            → self.new ≡ record { text = text_of text.now; capacity = self.old.capacity } }
        ensures full { result ≡ false → self.new ≡ self.old }
    {
        if text.len() > self.bytes.capacity() {
            return false;
        }
        self.bytes.clear();
        vec::append_slice(&mut self.bytes, text.as_bytes());
        true
    }

    /// Truncates the text to its first `len` bytes, which end at a boundary. Keeps the capacity.
    #[inline]
    pub fn truncate(&mut self, len: usize)
        requires { IsBoundary self.old.text len }
        ensures { self.new
            ≡ record { text = text_before self.old.text len; capacity = self.old.capacity } }
    {
        self.bytes.truncate(len);
    }

    /// Removes all characters. Keeps the capacity.
    #[inline]
    pub fn clear(&mut self)
        ensures { self.new ≡ record { text = []; capacity = self.old.capacity } }
    {
        self.bytes.clear();
    }

    /// Removes all characters, and writes zeros over the whole buffer: the text, and the spare capacity, where old
    /// bytes remain when a text gets shorter. Keeps the capacity.
    pub fn zeroize(&mut self)
        ensures { self.new ≡ record { text = []; capacity = self.old.capacity } }
    {
        let capacity = self.bytes.capacity();
        slices::fill_zero(self.bytes.as_mut_slice());
        vec::append_zeros(&mut self.bytes, capacity);
        self.bytes.clear();
    }

    /// Converts ASCII characters to upper or lower case. Keeps the capacity.
    #[inline]
    pub fn convert_case(&mut self, case: Case)
        ensures { self.new
            ≡ record { text = text_in_case case self.old.text; capacity = self.old.capacity } }
    {
        slices::convert_case(self.bytes.as_mut_slice(), case);
    }

    /// Keeps the characters for which `keep` returns `true`; calls it once for each, in order. Keeps the capacity.
    #[inline]
    pub fn retain<F: FnMut(char) -> bool>(&mut self, keep: &mut F)
        requires { F.IsAlwaysCallable keep.old }
        ensures text { RetainsCharsTo F.FnMut keep.old self.old.text self.new.text keep.new }
        ensures callable { F.IsAlwaysCallable keep.new }
        ensures capacity { self.new.capacity ≡ self.old.capacity }
    {
        let len = self.bytes.len();
        let kept = slices::retain(self.bytes.as_mut_slice(), len, keep);
        self.bytes.truncate(kept);
    }

    /// Converts into a `String`, without copying.
    pub fn into_string(self) -> String
        ensures bytes { string_bytes result ≡ utf8 self.text }
        ensures text { text_of (string_bytes result) ≡ self.text }
        ensures capacity { self.capacity ≤ string_capacity result }
    {
        let HeapBuffer { bytes } = self;
        unsafe { String::from_utf8_unchecked(bytes) }
    }
}
