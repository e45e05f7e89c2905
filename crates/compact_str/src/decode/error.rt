//! Errors of the decoders.
ghost use Rattle.std.specs.Prelude.{◌≡◌};

use crate::error::ReserveError;
use thiserror::Error;

/// The error of `from_utf8` and `from_utf8_buf`.
///
/// `Utf8` displays as `invalid utf-8`, and `Reserve` as the error in it.
#[derive(Clone, Copy, Debug, PartialEq, Error)]
pub enum FromUtf8Error {
    /// The bytes are not valid UTF-8.
    #[error("invalid utf-8")]
    Utf8 {
        /// The length of the longest valid prefix, in bytes.
        valid_up_to: usize,
        /// The length of the invalid sequence after it, 1 to 3 bytes; `None` if the input ends inside a sequence that
        /// more bytes could complete.
        error_len: Option<usize>,
    },
    /// Allocation failed.
    #[error("{0}")]
    Reserve(ReserveError),
}

impl From<ReserveError> for FromUtf8Error {
    ghost use Rattle.compact_str.specs.declared.decode.error.FromUtf8Error.TheVariants.{Reserve};

    ghost from_gives = { λ e error. error ≡ Reserve e };

    /// The case `Reserve`.
    fn from(error: ReserveError) -> Self {
        FromUtf8Error::Reserve(error)
    }
}

/// The error of invalid UTF-16: a surrogate is unpaired, or the number of bytes is odd.
///
/// Displays as `invalid utf-16: lone surrogate found`.
#[derive(Clone, Copy, Debug, Error)]
#[error("invalid utf-16: lone surrogate found")]
pub struct Utf16Error;

/// The error of `from_utf16`, `from_utf16le` and `from_utf16be`.
///
/// Displays as the error in it.
#[derive(Clone, Copy, Debug, Error)]
pub enum FromUtf16Error {
    /// The input is not valid UTF-16.
    #[error("{0}")]
    Utf16(Utf16Error),
    /// Allocation failed.
    #[error("{0}")]
    Reserve(ReserveError),
}

impl From<ReserveError> for FromUtf16Error {
    ghost use Rattle.compact_str.specs.declared.decode.error.FromUtf16Error.TheVariants.{Reserve};

    ghost from_gives = { λ e error. error ≡ Reserve e };

    /// The case `Reserve`.
    fn from(error: ReserveError) -> Self {
        FromUtf16Error::Reserve(error)
    }
}
