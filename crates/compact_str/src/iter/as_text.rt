//! Types that can be read as a `str`.
ghost use Rattle.std.specs.Prelude.{◌≡◌, ℕ, List, string_bytes};
ghost use Rattle.std.specs.Box.{boxed_str_bytes};
ghost use Rattle.std.specs.Cow.{cow_str_bytes};
ghost use Rattle.compact_str.specs.Words.{text_of};
ghost use Rattle.compact_str.specs.Order.{text_in};

use crate::string::PolicyString;
use compact_repr::Policy;
use std::borrow::CowStr;
use std::boxed::BoxedStr;

/// A type that can be read as a `str`: an item to collect, join or append.
///
/// Implemented for `&str`, `String`, `BoxedStr`, `CowStr` and `CompactString`, and for references to them.
pub trait AsText: Drop {
    // The characters.
    ghost text: { Self → List ℕ };

    /// Returns the text.
    ///
    /// # Examples
    ///
    /// ```
    /// let name = CompactString::new(alloc, "é")?;
    /// assert_eq!(rt; name.text(), "é");
    /// assert_eq!(rt; name.text(), "é".text());
    /// ```
    fn text(&self) -> &str
        ensures { text_of result.now ≡ text self.now };
}

impl AsText for &str {
    ghost text = { λ s. text_of s.now };

    #[inline]
    fn text(&self) -> &str {
        *self
    }
}

impl AsText for String {
    ghost text = { λ s. text_of (string_bytes s) };

    #[inline]
    fn text(&self) -> &str {
        String::as_str(self)
    }
}

impl AsText for BoxedStr {
    ghost text = { λ s. text_of (boxed_str_bytes s) };

    #[inline]
    fn text(&self) -> &str {
        BoxedStr::as_str(self)
    }
}

impl AsText for CowStr<'_> {
    ghost text = { λ s. text_of (cow_str_bytes s) };

    #[inline]
    fn text(&self) -> &str {
        CowStr::as_str(self)
    }
}

impl<P: Policy> AsText for PolicyString<P> {
    ghost text = { text_in };

    #[inline]
    fn text(&self) -> &str {
        PolicyString::as_str(self)
    }
}

impl<T: AsText> AsText for &T {
    ghost text = { λ t. T.text t.now };

    #[inline]
    fn text(&self) -> &str {
        (**self).text()
    }
}
