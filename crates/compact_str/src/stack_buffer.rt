//! Text on the stack, which is collected before it is appended to a value.
ghost use Rattle.std.specs.Prelude.{◌≡◌, ◌+◌, ◌≤◌, [], ◌∷◌, ◌++◌, length, false, IsTrue, ◌↔◌};
ghost use Rattle.compact_str.specs.Words.{size, utf8, text_of};
ghost use Rattle.compact_text.specs.Text.{room_for_char};
ghost use Rattle.compact_str.specs.declared.stack_buffer.TheConstants.{BLOCK};

use compact_text::slices;
use std::marker::Model;

/// The block of a `Display` or of what is collected, zeroed at each call: with the fields after it 256 bytes at most, and so
/// inline.
pub const BLOCK: usize = 240;

/// A text of at most 240 bytes, in which short pieces are collected. Its bytes are zeroed at first.
#[derive(Drop)]
pub struct StackBuffer {
    bytes: [u8; BLOCK],
    len: usize,
}

impl Model for StackBuffer {
    ghost use Rattle.std.specs.Prelude.{ℕ, List, take, ◌≤◌};
    ghost use Rattle.std.specs.Str.{IsUtf8};
    ghost use Rattle.compact_str.specs.Words.{text_of};
    ghost use Rattle.compact_str.specs.declared.stack_buffer.TheConstants.{BLOCK};

    ghost Value = { List ℕ };

    ghost view = { λ b. text_of (take b.len b.bytes) };

    ghost invariant = { λ b. (b.len ≤ BLOCK) × IsUtf8 (take b.len b.bytes) };
}

#[tactic(auto, using(crate::proofs::CollectFacts::block_facts))]
impl StackBuffer {
    /// Returns an empty buffer.
    #[inline]
    pub fn empty() -> Self
        ensures { result ≡ [] }
    {
        StackBuffer {
            bytes: [0; BLOCK],
            len: 0,
        }
    }

    /// Returns the text.
    #[inline]
    pub fn as_str(&self) -> &str
        ensures bytes { result.now ≡ utf8 self.now }
        ensures text { text_of result.now ≡ self.now }
    {
        unsafe { std::str::from_utf8_unchecked(&self.bytes[..self.len]) }
    }

    /// Appends `text`, up to 32 bytes by words, or returns `false` if it does not fit.
    #[inline]
    pub fn try_push_str(&mut self, text: &str) -> bool
        ensures fits { IsTrue result ↔ (size self.old + length text.now ≤ BLOCK) }
        ensures pushed { IsTrue result → self.new ≡ self.old ++ text_of text.now }
        ensures full { result ≡ false → self.new ≡ self.old }
    {
        if text.len() > BLOCK - self.len {
            return false;
        }
        let end = self.len + text.len();
        slices::write(&mut self.bytes, self.len, text.as_bytes());
        self.len = end;
        true
    }

    /// As `try_push_str`, by one copy: for a text whose length the compiler often knows.
    #[inline]
    pub fn try_copy_str(&mut self, text: &str) -> bool
        ensures fits { IsTrue result ↔ (size self.old + length text.now ≤ BLOCK) }
        ensures pushed { IsTrue result → self.new ≡ self.old ++ text_of text.now }
        ensures full { result ≡ false → self.new ≡ self.old }
    {
        if text.len() > BLOCK - self.len {
            return false;
        }
        let end = self.len + text.len();
        slices::write_whole(&mut self.bytes, self.len, text.as_bytes());
        self.len = end;
        true
    }

    /// Appends `character` if it is ASCII and fits, or if four bytes are free; otherwise returns `false`.
    #[inline]
    pub fn try_push(&mut self, character: char) -> bool
        ensures fits { IsTrue result ↔ (size self.old + room_for_char character ≤ BLOCK) }
        ensures pushed { IsTrue result → self.new ≡ self.old ++ character ∷ [] }
        ensures full { result ≡ false → self.new ≡ self.old }
    {
        let Some(end) = slices::try_write_char(&mut self.bytes, self.len, character) else {
            return false;
        };
        self.len = end;
        true
    }

    /// Removes the text.
    #[inline]
    pub fn clear(&mut self)
        ensures { self.new ≡ [] }
    {
        self.len = 0;
    }
}
