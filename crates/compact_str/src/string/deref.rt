//! Strings as `&str`.
ghost use Rattle.std.specs.Prelude.{◌≡◌, ℕ, List, length};
ghost use Rattle.std.specs.Str.{IsCharBoundary};
ghost use Rattle.compact_str.specs.Words.{size, utf8, text_of, IsBoundary};

use crate::string::PolicyString;
use compact_repr::Policy;
use std::convert::AsStr;
use std::ops::{AsDeref, DerefStr};

impl<P: Policy> DerefStr for PolicyString<P> {
    ghost deref_gives = { λ v bytes. bytes ≡ utf8 v.text };

    /// Returns the text, so that a string has the methods of `&str` and `&value` is a `&str` if one is expected.
    ///
    /// # Examples
    ///
    /// ```
    /// let field = CompactString::new(alloc, "clé=valeur")?;
    /// assert_eq!(rt; field.find('='), Some(4));
    /// assert_eq!(rt; &field[..4], "clé");
    /// ```
    #[inline]
    fn deref(&self) -> &str
        ensures bytes { result.now ≡ utf8 self.now.text }
        ensures text { text_of result.now ≡ self.now.text }
        ensures len { length result.now ≡ size self.now.text }
        ensures boundaries { (i : ℕ) → IsCharBoundary result.now i → IsBoundary self.now.text i }
    {
        self.as_str()
    }
}

impl<'a, P: Policy + 'a> AsDeref<'a> for PolicyString<P> {
    type Shown = &'a str;

    ghost as_deref_gives = { λ v y. y.now ≡ utf8 v.text };

    ghost View = { List ℕ };

    ghost view = { λ v. utf8 v.text };

    ghost output_view = { λ y. y.now };

    /// Same as `as_str`, for `as_deref` of an `Option`.
    ///
    /// # Examples
    ///
    /// ```
    /// let name: Option<CompactString> = None;
    /// assert_eq!(rt; name.as_deref().unwrap_or("none"), "none");
    /// ```
    #[inline]
    fn shown(&'a self) -> &'a str {
        self
    }
}

impl<P: Policy> AsStr for PolicyString<P> {
    ghost text = { λ v. utf8 v.text };

    /// Same as `as_str`, for calls that take any `T: AsStr`.
    #[inline]
    fn as_str(&self) -> &str {
        PolicyString::as_str(self)
    }
}
