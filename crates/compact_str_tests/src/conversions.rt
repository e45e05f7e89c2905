//! Conversions from a value, with ample memory.

use compact_asserts::{assert_equal, assert_that, that, that_for};
use compact_str::{CompactString, FromJsonError};
use compact_testing::checks::{is_heap, is_inline};
use compact_testing::values::{ascii_text, lasting, short, string_with_room, with_room};
use serde_json::Value;
use std::alloc::Global;
use std::borrow::CowStr;
use std::process::Abort;

/// Creates a value of capacity 60, whose text of 40 bytes was cut to `"äb"`.
fn shortened(rt: &impl Abort, alloc: Global) -> CompactString {
    let mut value = with_room(alloc, 60).expect(rt, "memory");
    value
        .push_str("äbcdefghijklmnopqrstuvwxyz0123456789")
        .expect(rt, "memory");
    that(value.is_char_boundary(3)).expect(rt, "it holds");
    value.truncate(3);
    value
}

#[test]
fn what_leaves_has_this_room(rt: HostRuntime) {
    let rt = &rt;
    let alloc = rt.alloc();
    let text = string_with_room(alloc, 90, ascii_text(30)).expect(rt, "memory");
    let value = CompactString::from_string_buffer(text);
    let text = value.into_string().expect(rt, "memory");
    assert_equal!(rt, text.capacity(), 90);
    let value = CompactString::from_string_buffer(text);
    assert_that!(rt, is_heap(&value, 90, ascii_text(30)));
    let bytes = value.into_vec().expect(rt, "memory");
    assert_equal!(rt, bytes.capacity(), 90);
    let bytes = short(alloc, "äb").into_bytes().expect(rt, "memory");
    assert_equal!(rt, bytes.as_slice(), [0xc3, 0xa4, 0x62].as_slice());
    assert_equal!(rt, bytes.capacity(), 24);
}

#[test]
fn boxes_and_shared_texts_have_the_text(rt: HostRuntime) {
    let rt = &rt;
    let alloc = rt.alloc();
    let boxed = short(alloc, "äb").into_boxed_str().expect(rt, "memory");
    assert_equal!(rt, boxed.as_str(), "äb");
    let boxed = shortened(rt, alloc).into_boxed_str().expect(rt, "memory");
    assert_equal!(rt, boxed.as_str(), "äb");
    let shared = shortened(rt, alloc).into_rc().expect(rt, "memory");
    assert_equal!(rt, shared.as_str(), "äb");
    let shared = lasting(alloc, 30).into_rc().expect(rt, "memory");
    assert_equal!(rt, shared.as_str(), ascii_text(30));
}

#[test]
fn an_empty_value_is_converted(rt: HostRuntime) {
    let rt = &rt;
    let alloc = rt.alloc();
    let text = short(alloc, "").into_string().expect(rt, "memory");
    assert_equal!(rt, text.len(), 0);
    let bytes = short(alloc, "").into_vec().expect(rt, "memory");
    assert_equal!(rt, bytes.len(), 0);
    let boxed = short(alloc, "").into_boxed_str().expect(rt, "memory");
    assert_equal!(rt, boxed.as_str(), "");
    let shared = short(alloc, "").into_rc().expect(rt, "memory");
    assert_equal!(rt, shared.as_str(), "");
    let cow = short(alloc, "").into_cow().expect(rt, "memory");
    assert_equal!(rt, cow.as_str(), "");
    let json = json_of(rt, &short(alloc, ""));
    assert_equal!(rt, json.as_str(), Some(""));
}

/// Asserts a text, and whether it is borrowed.
fn assert_cow(rt: &impl Abort, cow: CowStr<'_>, text: &str, is_borrowed: bool) {
    assert_that!(rt, matches!(cow, CowStr::Borrowed(_)) == is_borrowed);
    assert_equal!(rt, cow.as_str(), text);
}

#[test]
fn a_static_text_is_borrowed_and_others_are_owned(rt: HostRuntime) {
    let rt = &rt;
    let alloc = rt.alloc();
    let cow = lasting(alloc, 30).into_cow().expect(rt, "memory");
    assert_cow(rt, cow, ascii_text(30), true);
    let cow = short(alloc, "äb").into_cow().expect(rt, "memory");
    assert_cow(rt, cow, "äb", false);
    let value = shortened(rt, alloc);
    assert_cow(rt, value.as_cow(), "äb", true);
    assert_cow(rt, value.into_cow().expect(rt, "memory"), "äb", false);
}

/// Converts a text to a JSON value.
fn json_of(rt: &impl Abort, value: &CompactString) -> Value {
    value.to_json().expect(rt, "memory")
}

/// Asserts the JSON of a text, as printed.
fn is_printed(rt: &impl Abort, alloc: Global, value: CompactString, text: &str) {
    let json = json_of(rt, &value);
    assert_equal!(
        rt,
        json.to_string(alloc).expect(rt, "memory").as_str(),
        text,
    );
}

/// Reads a value from a JSON string.
fn value_in(rt: &impl Abort, alloc: Global, json: &Value) -> CompactString {
    CompactString::from_json(alloc, json).expect(rt, "a string")
}

#[test]
fn a_value_is_a_json_string(rt: HostRuntime) {
    let rt = &rt;
    let alloc = rt.alloc();
    is_printed(rt, alloc, short(alloc, "abc"), "\"abc\"");
    is_printed(rt, alloc, short(alloc, "ä\"\n"), "\"ä\\\"\\n\"");
    let json = json_of(rt, &lasting(alloc, 30));
    assert_that!(rt, is_heap(&value_in(rt, alloc, &json), 32, ascii_text(30)));
}

/// Parses a JSON value.
fn json_in(rt: &impl Abort, alloc: Global, text: &str) -> Value {
    serde_json::from_str(alloc, text).expect(rt, "a JSON value")
}

/// Asserts that a JSON value is not a string.
fn is_no_string(rt: &impl Abort, alloc: Global, text: &str) {
    let json = json_in(rt, alloc, text);
    let error = CompactString::from_json(alloc, &json).err();
    that_for(text, matches!(error, Some(FromJsonError::NotAString))).expect(rt, "it holds");
}

#[test]
fn only_a_json_string_is_converted(rt: HostRuntime) {
    let rt = &rt;
    let alloc = rt.alloc();
    let json = json_in(rt, alloc, "\"abc\"");
    assert_that!(rt, is_inline(&value_in(rt, alloc, &json), "abc"));
    for text in ["1", "null", "true", "[]", "{}", "[\"abc\"]"] {
        is_no_string(rt, alloc, text);
    }
}
