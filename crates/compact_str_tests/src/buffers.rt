//! Buffers in pieces, split at every place.

use crate::one_byte_buf::OneByteBuf;
use bytes::Buf;
use compact_asserts::{assert_equal, assert_that};
use compact_str::{CompactString, FromUtf8Error};
use compact_testing::checks::is_fitted;
use std::alloc::Global;
use std::process::Abort;

/// Reads a buffer, and asserts that nothing remains.
fn read_whole<B: Buf>(
    rt: &impl Abort,
    alloc: Global,
    buf: &mut B,
) -> Result<CompactString, FromUtf8Error> {
    let made = CompactString::from_utf8_buf(alloc, buf);
    assert_equal!(rt, buf.remaining(), 0);
    made
}

/// Reads bytes as two pieces.
fn of_two(
    rt: &impl Abort,
    alloc: Global,
    bytes: &[u8],
    place: usize,
) -> Result<CompactString, FromUtf8Error> {
    let first = bytes.get(..place).unwrap_or(&[]);
    let second = bytes.get(place..).unwrap_or(&[]);
    read_whole(rt, alloc, &mut Buf::chain(first, second))
}

/// Reads bytes one at a time.
fn of_drips(rt: &impl Abort, alloc: Global, bytes: &[u8]) -> Result<CompactString, FromUtf8Error> {
    read_whole(rt, alloc, &mut OneByteBuf { rest: bytes })
}

/// Asserts that a text is read wherever it is split.
fn assert_read(rt: &impl Abort, alloc: Global, text: &str) {
    let bytes = text.as_bytes();
    for place in 0..bytes.len() + 1 {
        let made = of_two(rt, alloc, bytes, place).ok().expect(rt, "a text");
        assert_that!(rt, is_fitted(&made, text));
    }
    let made = of_drips(rt, alloc, bytes).ok().expect(rt, "a text");
    assert_that!(rt, is_fitted(&made, text));
}

#[test]
fn a_text_is_read_wherever_it_is_split(rt: HostRuntime) {
    let rt = &rt;
    let alloc = rt.alloc();
    assert_read(rt, alloc, "");
    assert_read(rt, alloc, "aä€𝄞");
    assert_read(rt, alloc, "\u{1F496}");
    assert_read(rt, alloc, "€€€€€€€€");
    assert_read(rt, alloc, "€€€€€€€€€");
    assert_read(rt, alloc, "aä€𝄞aä€𝄞aä€𝄞aä€𝄞");
}

/// Asserts that invalid bytes have one error wherever they are split.
fn assert_invalid(rt: &impl Abort, alloc: Global, bytes: &[u8], error: FromUtf8Error) {
    for place in 0..bytes.len() + 1 {
        assert_that!(rt, of_two(rt, alloc, bytes, place).err() == Some(error));
    }
    assert_that!(rt, of_drips(rt, alloc, bytes).err() == Some(error));
}

/// Returns an error at a byte, with the length of the invalid sequence, or `None` for an unexpected end.
fn error_at(valid_up_to: usize, error_len: Option<usize>) -> FromUtf8Error {
    FromUtf8Error::Utf8 {
        valid_up_to,
        error_len,
    }
}

#[test]
fn invalid_bytes_have_one_error_wherever_they_are_split(rt: HostRuntime) {
    let rt = &rt;
    let alloc = rt.alloc();
    assert_invalid(rt, alloc, b"\xE2\x82A", error_at(0, Some(2)));
    assert_invalid(rt, alloc, b"\xC3\xA4\xED\xA0\x80", error_at(2, Some(1)));
    assert_invalid(rt, alloc, b"a\xF0\x9F\x92", error_at(1, None));
    let short = b"\0\0\0\0\0\0\0\0\0\0\0\0\0\0\0\0\0\0\0\0\0\0\0\xC0";
    assert_invalid(rt, alloc, short, error_at(23, Some(1)));
    let long = b"aaaaaaaaaaaaaaaaaaaaaaaa\xF4\x90\x80\x80";
    assert_invalid(rt, alloc, long, error_at(24, Some(1)));
}
