//! Decoding with no memory: bytes in two pieces, and which error comes first.

use crate::asserts::assert_fitted;
use bytes::Buf;
use compact_asserts::{assert_equal, assert_that};
use compact_str::{CompactString, FromUtf8Error, FromUtf16Error, ReserveError};
use compact_testing::memory::take_all;
use compact_testing::values::ascii_text;
use std::alloc::Global;
use std::process::Abort;

/// Asserts that this text is read wherever it is split.
fn assert_read(rt: &impl Abort, alloc: Global, text: &str) {
    for place in 0..text.len() + 1 {
        let (first, second) = text.as_bytes().split_at(place);
        let made = CompactString::from_utf8_buf(alloc, &mut Buf::chain(first, second));
        assert_fitted(rt, &made.ok().expect(rt, "a text"), text);
    }
}

/// Returns an error at a byte, with the length of the invalid sequence, or `None` for an unexpected end.
fn error_at(valid_up_to: usize, error_len: Option<usize>) -> Option<FromUtf8Error> {
    Some(FromUtf8Error::Utf8 {
        valid_up_to,
        error_len,
    })
}

#[test]
fn pieces_of_24_bytes_need_no_memory(rt: HostRuntime) {
    let rt = &rt;
    let alloc = rt.alloc();
    let hog = take_all(alloc).expect(rt, "room for the list of blocks");
    assert_read(rt, alloc, "€€€€€€€€");
    let mut invalid = Buf::chain(b"a\xF0".as_slice(), b"\x9F\x92".as_slice());
    let failed = CompactString::from_utf8_buf(alloc, &mut invalid).err();
    assert_that!(rt, failed == error_at(1, None));
    let mut long = Buf::chain(ascii_text(12).as_bytes(), ascii_text(13).as_bytes());
    let made = CompactString::from_utf8_buf(alloc, &mut long);
    assert_that!(rt, matches!(made, Err(FromUtf8Error::Reserve(_))));
    drop(hog);
}

#[test]
fn after_a_failed_allocation_the_end_of_a_buffer_can_be_read(rt: HostRuntime) {
    let rt = &rt;
    let alloc = rt.alloc();
    let mut buf = Buf::chain(b"abcdefghi".as_slice(), b"jklmnopqrstuvwxyzABCD".as_slice());
    let hog = take_all(alloc).expect(rt, "room for the list of blocks");
    let made = CompactString::from_utf8_buf(alloc, &mut buf);
    drop(hog);
    assert_that!(rt, matches!(made, Err(FromUtf8Error::Reserve(_))));
    let len = buf.remaining();
    let rest = CompactString::from_utf8_buf(alloc, &mut buf);
    let rest = rest.ok().expect(rt, "a text");
    assert_equal!(rt, rest.len(), len);
    let is_end = "abcdefghijklmnopqrstuvwxyzABCD".ends_with(rest.as_str());
    assert_that!(rt, is_end);
}

/// Asserts that units are invalid.
fn assert_invalid_units(rt: &impl Abort, made: Result<CompactString, FromUtf16Error>) {
    assert_that!(rt, matches!(made, Err(FromUtf16Error::Utf16(_))));
}

/// Slices are validated before allocating; a buffer is read first.
#[test]
fn invalid_slices_are_reported_before_an_allocation(rt: HostRuntime) {
    let rt = &rt;
    let alloc = rt.alloc();
    let hog = take_all(alloc).expect(rt, "room for the list of blocks");
    let error = CompactString::from_utf8(alloc, b"aaaaaaaaaaaaaaaaaaaaaaaaaaaaa\xFF").err();
    assert_that!(rt, error == error_at(29, Some(1)));
    assert_invalid_units(rt, CompactString::from_utf16(alloc, &[0xDC00; 30]));
    assert_invalid_units(rt, CompactString::from_utf16le(alloc, &[0x61; 59]));
    let mut invalid = b"\xFFaaaaaaaaaaaaaaaaaaaaaaaaaaaaa".as_slice();
    let failed = CompactString::from_utf8_buf(alloc, &mut invalid).err();
    assert_that!(rt, failed == Some(FromUtf8Error::Reserve(ReserveError)));
    drop(hog);
}
