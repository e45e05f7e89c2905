//! The error that returns a value.
ghost use Rattle.std.specs.Prelude.{◌≡◌, alloc_error};
ghost use Rattle.std.specs.IoError.{error_kind};
ghost use Rattle.std.specs.declared.io.ErrorKind.TheVariants.{OutOfMemory};

use crate::error::ReserveError;
use std::alloc::AllocError;
use std::{fmt, io};

/// Allocation failed; holds the value that was passed, unchanged.
///
/// `?` drops the value and converts to `ReserveError`, `AllocError`, `fmt::Error` or `io::Error`.
///
/// # Examples
///
/// ```
/// let name = CompactString::new(alloc, "é")?;
/// match name.into_string() {
///     Ok(line) => assert_eq!(rt; line.as_str(), "é"),
///     Err(error) => assert_eq!(rt; error.value.as_str(), "é"),
/// }
/// ```
#[derive(Debug, Drop)]
pub struct Refused<T> {
    /// The error.
    pub error: ReserveError,
    /// The value that was passed.
    pub value: T,
}

impl<T: Drop> From<Refused<T>> for ReserveError {
    ghost from_gives = { λ refused error. error ≡ refused.error };

    fn from(refused: Refused<T>) -> ReserveError {
        refused.error
    }
}

impl<T: Drop> From<Refused<T>> for AllocError {
    ghost from_gives = { λ _ error. error ≡ alloc_error };

    fn from(_refused: Refused<T>) -> AllocError {
        AllocError
    }
}

impl<T: Drop> From<Refused<T>> for fmt::Error {
    fn from(_refused: Refused<T>) -> fmt::Error {
        fmt::Error
    }
}

impl<T: Drop> From<Refused<T>> for io::Error {
    ghost from_gives = { λ _ error. error_kind error ≡ OutOfMemory };

    fn from(refused: Refused<T>) -> io::Error {
        io::Error::from(refused.error)
    }
}
