//! Strings as bytes and paths.
ghost use Rattle.std.specs.Prelude.{Some};
ghost use Rattle.compact_str.specs.Words.{utf8};

use crate::string::PolicyString;
use compact_repr::Policy;
use std::convert::AsSlice;
use std::io::AsBytes;
use std::path::AsPath;

impl<P: Policy> AsSlice<u8> for PolicyString<P> {
    ghost items = { λ v. utf8 v.text };

    #[inline]
    fn as_slice(&self) -> &[u8] {
        self.as_bytes()
    }
}

impl<P: Policy> AsBytes for PolicyString<P> {
    ghost bytes = { λ v. Some (utf8 v.text) };

    /// Same as `as_bytes`, for writers and readers.
    #[inline]
    fn as_byte_slice(&self) -> &[u8] {
        self.as_bytes()
    }
}

impl<P: Policy> AsBytes for &PolicyString<P> {
    ghost bytes = { λ v. Some (utf8 v.now.text) };

    #[inline]
    fn as_byte_slice(&self) -> &[u8] {
        let value: &PolicyString<P> = *self;
        value.as_bytes()
    }
}

impl<P: Policy> AsPath for PolicyString<P> {
    ghost path_text = { λ v. Some (utf8 v.text) };

    /// Same as `as_str`, for calls that take a path, such as `File::open`.
    #[inline]
    fn path_text(&self) -> &str {
        self.as_str()
    }
}
