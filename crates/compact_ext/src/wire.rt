//! The wire form of a string: its length in bytes as four bytes, the low one first, and then its bytes.
//!
//! Reads and writes exactly those bytes, so that other data may follow. Nothing is retried, not even `Interrupted`.

mod read;
mod records;
mod write;

ghost use Rattle.std.specs.Prelude.{◌≡◌};
ghost use Rattle.compact_ext.specs.Wire.{FormHasOneText};

use compact_str::ReserveError;
pub use read::read_wire;
pub use records::Records;
use std::alloc::AllocError;
use std::io;
use thiserror::Error;
pub use write::write_wire;

/// The error of reading or writing a wire form.
#[derive(Debug, Drop, Error)]
pub enum WireError {
    /// The text has more than 2^32 - 1 bytes. Nothing was written.
    #[error("text too long for the wire form")]
    TooLong,
    /// The input ended inside the form. All of it has been consumed.
    #[error("unexpected end of input")]
    UnexpectedEnd,
    /// The text is not valid UTF-8. Exactly its form has been consumed.
    #[error("invalid utf-8")]
    Utf8,
    /// The reader or writer failed. Part of the form has been consumed or written.
    #[error("input or output failed")]
    Io(io::Error),
    /// The writer accepted no bytes. Part of the form has been written.
    #[error("writer took no bytes")]
    WriteZero,
    /// Allocation failed, past 24 bytes. Part of the form has been consumed, at least its length; or, if the vector of
    /// `into_vec` cannot grow, whole forms.
    #[error("{0}")]
    Reserve(ReserveError),
}

impl From<io::Error> for WireError {
    ghost use Rattle.compact_ext.specs.declared.wire.WireError.TheVariants.{Io};

    ghost from_gives = { λ e error. error ≡ Io e };

    /// The case `Io`.
    fn from(error: io::Error) -> Self {
        WireError::Io(error)
    }
}

impl From<ReserveError> for WireError {
    ghost use Rattle.compact_ext.specs.declared.wire.WireError.TheVariants.{Reserve};

    ghost from_gives = { λ e error. error ≡ Reserve e };

    /// The case `Reserve`.
    fn from(error: ReserveError) -> Self {
        WireError::Reserve(error)
    }
}

impl From<AllocError> for WireError {
    ghost use Rattle.compact_ext.specs.declared.wire.WireError.TheVariants.{Reserve};

    ghost from_gives = { λ _ error. error ≡ Reserve (record {}) };

    /// The case `Reserve`, for `push` of a `Vec` of strings.
    fn from(error: AllocError) -> Self {
        WireError::Reserve(ReserveError::from(error))
    }
}

/// A law: a wire form determines its text and where it ends. So a sequence of forms is read in one way.
pub fn a_form_tells_its_text()
    ensures { FormHasOneText }
{}
