//! Texts of 100,000 bytes: no contract says that a call with enough memory succeeds.

use bytes::Buf;
use compact_asserts::{assert_equal, assert_that};
use compact_str::{CompactString, FromUtf8Error};
use std::alloc::Global;
use std::process::Abort;

/// Creates 100,000 times `a`.
fn long(rt: &impl Abort, alloc: Global) -> String {
    let mut bytes = Vec::new(alloc);
    bytes.resize(100_000, b'a').expect(rt, "memory");
    String::from_utf8(bytes).ok().expect(rt, "a text")
}

/// Asserts that a call made that text, without spare capacity.
fn assert_long<E: Drop>(rt: &impl Abort, alloc: Global, made: Result<CompactString, E>) {
    let made = made.ok().expect(rt, "a text");
    assert_that!(rt, made.as_str() == long(rt, alloc).as_str());
    assert_equal!(rt, made.capacity(), 100_000);
}

#[test]
fn a_long_capacity_is_allocated(rt: HostRuntime) {
    let rt = &rt;
    let made = CompactString::with_capacity(rt.alloc(), 100_000).expect(rt, "memory");
    assert_equal!(rt, made.capacity(), 100_000);
    assert_equal!(rt, made.len(), 0);
}

#[test]
fn a_long_text_is_copied(rt: HostRuntime) {
    let rt = &rt;
    let alloc = rt.alloc();
    let text = long(rt, alloc);
    assert_long(rt, alloc, CompactString::new(alloc, text.as_str()));
}

#[test]
fn a_long_value_is_cloned(rt: HostRuntime) {
    let rt = &rt;
    let alloc = rt.alloc();
    let value = CompactString::from(long(rt, alloc));
    assert_long(rt, alloc, value.clone());
}

#[test]
fn a_long_buffer_is_decoded(rt: HostRuntime) {
    let rt = &rt;
    let alloc = rt.alloc();
    let text = long(rt, alloc);
    let first = text.as_bytes().get(..99_999).unwrap_or(&[]);
    let second = text.as_bytes().get(99_999..).unwrap_or(&[]);
    let mut buf = Buf::chain(first, second);
    let made = CompactString::from_utf8_buf(alloc, &mut buf);
    assert_long(rt, alloc, made);
}

#[test]
fn a_long_box_is_copied(rt: HostRuntime) {
    let rt = &rt;
    let alloc = rt.alloc();
    let boxed = long(rt, alloc).into_boxed_str();
    assert_long(rt, alloc, CompactString::from_boxed_str(alloc, boxed));
}

#[test]
fn long_texts_are_concatenated(rt: HostRuntime) {
    let rt = &rt;
    let alloc = rt.alloc();
    let text = long(rt, alloc);
    let made = CompactString::from_texts(alloc, ["b", text.as_str(), "c"]).expect(rt, "memory");
    assert_equal!(rt, made.len(), 100_002);
    assert_that!(rt, made.starts_with("ba"));
    assert_that!(rt, made.ends_with("ac"));
}

#[test]
fn what_is_collected_takes_at_most_twice_its_length(rt: HostRuntime) {
    let rt = &rt;
    let alloc = rt.alloc();
    let text = long(rt, alloc);
    for len in [241, 300, 511, 512, 1000, 1025, 3000, 100_000] {
        let made = CompactString::from_chars(alloc, text.chars().take(len)).expect(rt, "memory");
        assert_equal!(rt, made.len(), len);
        assert_that!(rt, made.capacity() - len <= len);
    }
}

#[test]
fn a_long_json_string_is_read(rt: HostRuntime) {
    let rt = &rt;
    let alloc = rt.alloc();
    let json = serde_json::to_string(alloc, &long(rt, alloc)).expect(rt, "memory");
    let read: Result<CompactString, serde_json::Error> = serde_json::from_str(alloc, json.as_str());
    assert_long(rt, alloc, read);
}

/// Asserts the error of invalid bytes.
fn assert_error(rt: &impl Abort, alloc: Global, bytes: &[u8], wanted: (usize, Option<usize>)) {
    let (valid_up_to, error_len) = wanted;
    let error = FromUtf8Error::Utf8 {
        valid_up_to,
        error_len,
    };
    assert_that!(
        rt,
        CompactString::from_utf8(alloc, bytes).err() == Some(error),
    );
}

/// Sets a byte.
fn set(rt: &impl Abort, bytes: &mut [u8], place: usize, byte: u8) {
    *bytes.get_mut(place).expect(rt, "a place") = byte;
}

#[test]
fn long_bytes_are_validated_to_their_end(rt: HostRuntime) {
    let rt = &rt;
    let alloc = rt.alloc();
    let mut bytes = [b'a'; 20000];
    // A character across the end of the first 8192 bytes.
    set(rt, &mut bytes, 8190, 0xE2);
    set(rt, &mut bytes, 8191, 0x82);
    set(rt, &mut bytes, 8192, 0xAC);
    assert_that!(rt, CompactString::from_utf8(alloc, &bytes).is_ok());
    set(rt, &mut bytes, 19999, 0xE2);
    assert_error(rt, alloc, &bytes, (19999, None));
    set(rt, &mut bytes, 15000, 0xF4);
    set(rt, &mut bytes, 15001, 0x90);
    assert_error(rt, alloc, &bytes, (15000, Some(1)));
    set(rt, &mut bytes, 64, 0xE1);
    set(rt, &mut bytes, 65, 0x80);
    assert_error(rt, alloc, &bytes, (64, Some(2)));
}
