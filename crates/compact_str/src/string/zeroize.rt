//! Zeroing the buffer.
ghost use Rattle.std.specs.Prelude.{◌≡◌, []};
ghost use Rattle.compact_str.specs.Words.{zeroize, IsOwned};

use crate::string::PolicyString;
use compact_repr::Policy;

impl<P: Policy> PolicyString<P> {
    /// Removes the text and overwrites the whole buffer with zeros, also past the end of a shortened text. A static
    /// string becomes inline; any other keeps its place and capacity.
    ///
    /// Buffers freed earlier, for example by growth, are not cleared.
    ///
    /// # Examples
    ///
    /// ```
    /// let mut secret = CompactString::new(alloc, "pässword of more than 24 bytes")?;
    /// secret.zeroize();
    /// assert!(rt; secret.is_empty());
    /// assert_eq!(rt; secret.capacity(), 32);
    /// ```
    pub fn zeroize(&mut self)
        ensures value { self.new ≡ zeroize self.old }
        ensures text { self.new.text ≡ [] }
        ensures owned { IsOwned self.new }
    {
        self.repr.zeroize();
    }
}
