//! The error of an allocation.
ghost use Rattle.std.specs.Prelude.{◌≡◌};

use std::alloc::AllocError;
use thiserror::Error;

/// The error of an allocation: no memory was found, or the buffer would exceed 2^56 - 2 bytes, which is `MAX_CAPACITY`.
///
/// The failed call leaves text, place and capacity unchanged. A call that works in steps documents how far it came.
///
/// Displays as `Cannot allocate memory to hold CompactString`. `?` converts it to `AllocError`, `fmt::Error` and
/// `io::Error`, and from `AllocError` and `AllocFailed`.
#[derive(Clone, Copy, Debug, PartialEq, Eq, Error)]
#[error("Cannot allocate memory to hold CompactString")]
pub struct ReserveError;

impl From<AllocError> for ReserveError {
    ghost from_gives = { λ _ error. error ≡ record {} };

    fn from(_error: AllocError) -> Self {
        ReserveError
    }
}
