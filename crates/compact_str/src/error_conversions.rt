//! Conversions of `ReserveError`, other than that from `AllocError`.
//!
//! In a separate file, so that programs without conversions need not load these types.
ghost use Rattle.std.specs.Prelude.{◌≡◌, alloc_error};
ghost use Rattle.std.specs.IoError.{error_kind};
ghost use Rattle.std.specs.declared.io.ErrorKind.TheVariants.{OutOfMemory};

use crate::error::ReserveError;
use std::alloc::{AllocError, AllocFailed};
use std::{fmt, io};

/// Drops the value that was not stored.
impl<T: Drop> From<AllocFailed<T>> for ReserveError {
    ghost from_gives = { λ _ error. error ≡ record {} };

    fn from(_failed: AllocFailed<T>) -> Self {
        ReserveError
    }
}

impl From<ReserveError> for AllocError {
    ghost from_gives = { λ _ error. error ≡ alloc_error };

    fn from(_error: ReserveError) -> AllocError {
        AllocError
    }
}

impl From<ReserveError> for fmt::Error {
    fn from(_error: ReserveError) -> fmt::Error {
        fmt::Error
    }
}

impl From<ReserveError> for io::Error {
    ghost from_gives = { λ _ error. error_kind error ≡ OutOfMemory };

    fn from(_error: ReserveError) -> io::Error {
        io::Error::from(AllocError)
    }
}
