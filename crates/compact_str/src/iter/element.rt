//! Items to collect or append: texts and characters.
ghost use Rattle.std.specs.Prelude.{◌≡◌, ℕ, ◌+◌, ◌<◌, List, ◌++◌, OnOk, OnErr, IsOk, IsTrue, false};
ghost use Rattle.compact_str.specs.Words.{size, text_of, PlacedFor, AllocatesFor, room_to_append, HasRoomFor};
ghost use Rattle.compact_str.specs.Collect.{char_text, string_text};
ghost use Rattle.compact_str.specs.declared.stack_buffer.TheConstants.{BLOCK};

use crate::error::ReserveError;
use crate::iter::AsText;
use crate::iter::gather::append_both;
use crate::stack_buffer::StackBuffer;
use crate::string::PolicyString;
use compact_repr::Policy;
use compact_text::str_parts::encode_char;

/// A text or a character, which is appended as a whole.
pub trait Element: Drop {
    // The characters.
    ghost text: { Self → List ℕ };

    /// Appends the piece, like `push_str` and `push`.
    ///
    /// # Errors
    ///
    /// [`ReserveError`] as from `push_str`.
    fn push_to<P: Policy>(&self, value: &mut PolicyString<P>) -> Result<(), ReserveError>
        ensures text { OnOk result (value.new.text ≡ value.old.text ++ text self.now) }
        ensures place { OnOk result
            (PlacedFor P.growth value.old value.new (room_to_append (size (text self.now)))) }
        ensures succeeds { HasRoomFor value.old (size (text self.now)) → IsOk result }
        ensures allocates { OnErr result
            (AllocatesFor value.old (room_to_append (size (text self.now)))) }
        ensures err { OnErr result (value.new ≡ value.old) };

    /// Appends the piece to a block if two bytes more than it has are free there; otherwise may return `false`.
    fn try_push_to_block(&self, block: &mut StackBuffer) -> bool
        ensures room { result ≡ false → BLOCK < size block.old + (size (text self.now) + 2) }
        ensures pushed { IsTrue result → block.new ≡ block.old ++ text self.now }
        ensures full { result ≡ false → block.new ≡ block.old };

    /// Appends `block` and the piece to a long text.
    ///
    /// # Errors
    ///
    /// [`ReserveError`] if allocation fails.
    fn push_after(&self, long: &mut String, block: &str) -> Result<(), ReserveError>
        ensures { OnOk result
            (string_text long.new ≡ (string_text long.old ++ text_of block.now) ++ text self.now) };
}

impl<T: AsText> Element for T {
    ghost text = { T.text };

    #[inline]
    fn push_to<P: Policy>(&self, value: &mut PolicyString<P>) -> Result<(), ReserveError> {
        value.push_str(self.text())
    }

    #[inline]
    fn try_push_to_block(&self, block: &mut StackBuffer) -> bool {
        block.try_push_str(self.text())
    }

    #[inline]
    fn push_after(&self, long: &mut String, block: &str) -> Result<(), ReserveError> {
        append_both(long, block, self.text())
    }
}

impl Element for char {
    ghost text = { char_text };

    #[inline]
    fn push_to<P: Policy>(&self, value: &mut PolicyString<P>) -> Result<(), ReserveError> {
        value.push(*self)
    }

    #[inline]
    fn try_push_to_block(&self, block: &mut StackBuffer) -> bool {
        block.try_push(*self)
    }

    #[inline]
    fn push_after(&self, long: &mut String, block: &str) -> Result<(), ReserveError> {
        append_both(long, block, encode_char(*self, &mut [0; 4]))
    }
}

impl Element for &char {
    ghost text = { λ c. char_text c.now };

    #[inline]
    fn push_to<P: Policy>(&self, value: &mut PolicyString<P>) -> Result<(), ReserveError> {
        value.push(**self)
    }

    #[inline]
    fn try_push_to_block(&self, block: &mut StackBuffer) -> bool {
        block.try_push(**self)
    }

    #[inline]
    fn push_after(&self, long: &mut String, block: &str) -> Result<(), ReserveError> {
        append_both(long, block, encode_char(**self, &mut [0; 4]))
    }
}
