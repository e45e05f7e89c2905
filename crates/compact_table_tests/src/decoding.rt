//! Making values from bytes or UTF-16 units.

use crate::constructors::value_or_refused;
use crate::formatting::show;
use crate::table::Case;
use crate::try_line::Made;
use bytes::Buf;
use compact_str::{CompactString, FromUtf8Error, FromUtf16Error};
use std::alloc::Global;

/// Makes the value of a case that decodes, or else by another call.
pub fn decode(case: &Case<'_>, alloc: Global) -> Made {
    let (bytes, units) = (case.listed.bytes(), case.listed.units());
    match case.name {
        "from_utf8" => of_utf8(CompactString::from_utf8(alloc, bytes)),
        "from_utf8_lossy" => value_or_refused(CompactString::from_utf8_lossy(alloc, bytes)),
        "from_utf8_unchecked" => value_or_refused(CompactString::from_utf8_unchecked(
            alloc,
            case.word(0).as_bytes(),
        )),
        "from_utf8_buf" => of_pieces(case.word(0), case.word(1), alloc),
        "from_utf8_buf_unchecked" => of_buffer(case.word(0), alloc),
        "from_utf16" => of_utf16(CompactString::from_utf16(alloc, units)),
        "from_utf16_lossy" => value_or_refused(CompactString::from_utf16_lossy(alloc, units)),
        _ => decode_ordered(case, bytes, alloc),
    }
}

/// The same from units in bytes.
fn decode_ordered(case: &Case<'_>, bytes: &[u8], alloc: Global) -> Made {
    match case.name {
        "from_utf16le" => of_utf16(CompactString::from_utf16le(alloc, bytes)),
        "from_utf16be" => of_utf16(CompactString::from_utf16be(alloc, bytes)),
        "from_utf16le_lossy" => value_or_refused(CompactString::from_utf16le_lossy(alloc, bytes)),
        "from_utf16be_lossy" => value_or_refused(CompactString::from_utf16be_lossy(alloc, bytes)),
        _ => show(case, alloc),
    }
}

/// Makes a value from a buffer in two pieces.
fn of_pieces(first: &str, last: &str, alloc: Global) -> Made {
    let mut pieces = Buf::chain(first.as_bytes(), last.as_bytes());
    of_utf8(CompactString::from_utf8_buf(alloc, &mut pieces))
}

fn of_buffer(text: &str, alloc: Global) -> Made {
    let mut bytes = text.as_bytes();
    value_or_refused(CompactString::from_utf8_buf_unchecked(alloc, &mut bytes))
}

fn of_utf8(outcome: Result<CompactString, FromUtf8Error>) -> Made {
    match outcome {
        Ok(value) => Made::Value(value),
        Err(FromUtf8Error::Reserve(_)) => Made::Refused,
        Err(_) => Made::Fault,
    }
}

fn of_utf16(outcome: Result<CompactString, FromUtf16Error>) -> Made {
    match outcome {
        Ok(value) => Made::Value(value),
        Err(FromUtf16Error::Reserve(_)) => Made::Refused,
        Err(_) => Made::Fault,
    }
}
