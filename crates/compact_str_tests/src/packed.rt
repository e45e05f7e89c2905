//! The 24 bytes of inline values, written out.

use compact_asserts::{assert_equal, assert_that, that};
use compact_str::CompactString;
use compact_testing::checks::is_inline;
use compact_testing::values::{append, ascii_text, lasting, value_of};
use std::alloc::Global;
use std::process::Abort;

/// Keeps the first bytes, up to a position that is checked first.
fn truncate(rt: &impl Abort, value: &mut CompactString, len: usize) {
    that(len >= value.len() || value.is_char_boundary(len)).expect(rt, "it holds");
    value.truncate(len);
}

/// Returns the 24 bytes of an inline value.
fn bytes_of(rt: &impl Abort, value: &CompactString) -> [u8; 24] {
    value.packed().expect(rt, "an inline value")
}

/// Reads a text from its 24 bytes.
fn read(rt: &impl Abort, alloc: Global, bytes: &[u8; 24]) -> CompactString {
    CompactString::from_packed(alloc, bytes).expect(rt, "bytes of a text")
}

/// Asserts that a value is inline, that its bytes are its text and length, and that they are read as that text.
fn is_packed(rt: &impl Abort, alloc: Global, value: &CompactString) {
    let bytes = bytes_of(rt, value);
    let text = value.as_str();
    let len = text.len();
    that(len <= 24).expect(rt, "it holds");
    assert_equal!(rt, &bytes[..len], text.as_bytes());
    assert_that!(rt, len == 24 || bytes[23] as usize == 192 + len);
    assert_that!(rt, is_inline(&read(rt, alloc, &bytes), text));
}

/// The same for a value just made from the text, with zeros between text and length.
fn is_packed_anew(rt: &impl Abort, alloc: Global, value: &CompactString) {
    is_packed(rt, alloc, value);
    let made = value_of(alloc, value.as_str()).expect(rt, "memory");
    is_packed(rt, alloc, &made);
    let bytes = bytes_of(rt, &made);
    let len = made.len();
    that(len <= 24).expect(rt, "it holds");
    assert_that!(
        rt,
        len == 24 || bytes[len..23].iter().all(|byte| *byte == 0),
    );
}

/// Asserts the bytes of an inline value.
fn assert_packed_bytes(rt: &impl Abort, value: &CompactString, row: &[u8; 24]) {
    assert_equal!(rt, &bytes_of(rt, value), row);
}

#[test]
fn new_values_have_these_bytes(rt: HostRuntime) {
    let rt = &rt;
    let alloc = rt.alloc();
    let empty = b"\0\0\0\0\0\0\0\0\0\0\0\0\0\0\0\0\0\0\0\0\0\0\0\xC0";
    assert_packed_bytes(rt, &CompactString::default(alloc), empty);
    for (text, row) in [
        ("", empty),
        ("hello world", b"hello world\0\0\0\0\0\0\0\0\0\0\0\0\xCB"),
        (ascii_text(16), b"aaaaaaaaaaaaaaaa\0\0\0\0\0\0\0\xD0"),
        (ascii_text(23), b"aaaaaaaaaaaaaaaaaaaaaaa\xD7"),
        ("i am 24 characters long!", b"i am 24 characters long!"),
    ] {
        assert_packed_bytes(rt, &value_of(alloc, text).expect(rt, "memory"), row);
    }
}

#[test]
fn the_last_byte_of_24_is_of_the_text_or_its_length(rt: HostRuntime) {
    let rt = &rt;
    let alloc = rt.alloc();
    let euros = bytes_of(rt, &value_of(alloc, "€€€€€€€€").expect(rt, "memory"));
    assert_equal!(rt, euros[23], 0xAC);
    let mut cut = value_of(alloc, ascii_text(24)).expect(rt, "memory");
    truncate(rt, &mut cut, 3);
    assert_equal!(rt, bytes_of(rt, &cut)[23], 0xC3);
    is_packed(rt, alloc, &cut);
}

#[test]
fn a_static_value_has_no_bytes(rt: HostRuntime) {
    assert_that!(&rt, lasting(rt.alloc(), 25).packed().is_none());
}

#[test]
fn each_length_is_packed(rt: HostRuntime) {
    let rt = &rt;
    let alloc = rt.alloc();
    let mut value = CompactString::default(alloc);
    is_packed_anew(rt, alloc, &value);
    for letter in "abcdefghijklmnopqrstuvwx".chars() {
        value.push(letter).expect(rt, "memory");
        is_packed_anew(rt, alloc, &value);
    }
    assert_equal!(rt, value.as_str(), "abcdefghijklmnopqrstuvwx");
}

#[test]
fn bytes_of_a_text_are_read(rt: HostRuntime) {
    let rt = &rt;
    let alloc = rt.alloc();
    assert_that!(rt, is_inline(&read(rt, alloc, &[0x61; 24]), ascii_text(24)));
    let mut row = [0xFF; 24];
    row[0] = 0x61;
    row[23] = 0xC1;
    assert_that!(rt, is_inline(&read(rt, alloc, &row), "a"));
    row[23] = 0xC0;
    assert_that!(rt, is_inline(&read(rt, alloc, &row), ""));
}

#[test]
fn invalid_bytes_are_rejected(rt: HostRuntime) {
    let alloc = rt.alloc();
    for (first, last) in [(0, 0xD8), (0, 0xFF), (0xFF, 0xC1)] {
        let mut row = [0; 24];
        row[0] = first;
        row[23] = last;
        assert_that!(&rt, CompactString::from_packed(alloc, &row).is_none());
    }
    assert_that!(
        &rt,
        CompactString::from_packed(alloc, &[0x80; 24]).is_none(),
    );
}

#[test]
fn bytes_after_the_text_are_ignored(rt: HostRuntime) {
    let alloc = rt.alloc();
    for count in 0..24u8 {
        let mut row = [0xFF; 24];
        row[23] = 192 + count;
        for place in 0..count as usize {
            row[place] = 0x61;
        }
        let value = read(&rt, alloc, &row);
        assert_that!(&rt, is_inline(&value, ascii_text(count as usize)));
        is_packed_anew(&rt, alloc, &value);
    }
}

/// Wipes a value, and asserts the bytes of the empty text.
fn assert_zeroized(rt: &impl Abort, alloc: Global, mut value: CompactString) {
    value.zeroize();
    assert_that!(rt, is_inline(&value, ""));
    let row = b"\0\0\0\0\0\0\0\0\0\0\0\0\0\0\0\0\0\0\0\0\0\0\0\xC0";
    assert_packed_bytes(rt, &value, row);
    append(&mut value, "ab").expect(rt, "memory");
    is_packed(rt, alloc, &value);
}

#[test]
fn a_zeroized_value_has_the_bytes_of_the_empty_text(rt: HostRuntime) {
    let rt = &rt;
    let alloc = rt.alloc();
    for count in 0..25 {
        assert_zeroized(
            rt,
            alloc,
            value_of(alloc, ascii_text(count)).expect(rt, "memory"),
        );
        let mut cut = value_of(alloc, ascii_text(24)).expect(rt, "memory");
        truncate(rt, &mut cut, count);
        assert_zeroized(rt, alloc, cut);
    }
    assert_zeroized(rt, alloc, value_of(alloc, "€€€€€€€€").expect(rt, "memory"));
    assert_zeroized(rt, alloc, lasting(alloc, 30));
}
