//! Validation and stepwise decoding of UTF-8 and UTF-16.
//!
//! For any bytes read as UTF-8, and any 16-bit units read as UTF-16, this crate finds whether they encode a text, and
//! if not, what is invalid. A strict decoder calls it before it allocates the text; a lossy one goes step by step, with
//! U+FFFD for each invalid sequence. Nothing allocates, and each call returns.
//!
//! - `utf8`: a whole slice of bytes at once, or chunk by chunk.
//! - `utf16`: a slice of units at once, or character by character.
//! - `utf16_bytes`: the same for bytes, two a unit, in little- or big-endian order.
//!
//! The definitions in `specs/` are the Unicode Standard's.
#![tactic(auto)]

pub mod utf16;
pub mod utf16_bytes;
pub mod utf8;
