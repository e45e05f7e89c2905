//! Conversions of `ToCompactStringError` into errors of std.
//!
//! A separate file, since a contract imports all that its file imports.

use crate::format::ToCompactStringError;
use std::{fmt, io};

impl From<ToCompactStringError> for fmt::Error {
    /// The same error in both cases.
    fn from(_error: ToCompactStringError) -> fmt::Error {
        fmt::Error
    }
}

impl From<ToCompactStringError> for io::Error {
    ghost use Rattle.std.specs.Prelude.{◌≡◌};
    ghost use Rattle.std.specs.IoError.{error_kind};
    ghost use Rattle.compact_ext.specs.Shown.{format_error_kind};

    ghost from_gives = { λ error converted. error_kind converted ≡ format_error_kind error };

    /// `OutOfMemory` for `Reserve`, `Other` for `Fmt`.
    fn from(error: ToCompactStringError) -> io::Error {
        match error {
            ToCompactStringError::Reserve(_) => io::Error::from(io::ErrorKind::OutOfMemory),
            ToCompactStringError::Fmt(_) => io::Error::from(io::ErrorKind::Other),
        }
    }
}
