//! Constructors, with ample memory.

use compact_asserts::{assert_equal, assert_that};
use compact_str::CompactString;
use compact_testing::checks::{is_at, is_heap, is_inline, is_static};
use compact_testing::values::{ascii_text, lasting, string_with_room};
use std::alloc::Global;
use std::borrow::CowStr;
use std::mem::size_of;
use std::process::Abort;

#[test]
fn texts_of_the_program_are_static_if_they_are_long(rt: HostRuntime) {
    let alloc = rt.alloc();
    let value = lasting(alloc, 30);
    assert_that!(&rt, is_static(&value, ascii_text(30)));
    assert_equal!(&rt, value.as_static_str(), Some(ascii_text(30)));
    let short = CompactString::const_new(alloc, "abc");
    assert_that!(&rt, is_inline(&short, "abc"));
}

/// A place and a capacity.
type Placement = (&'static str, usize);

/// Asserts the placement of a string with this capacity after each conversion from it.
fn assert_reused(rt: &impl Abort, alloc: Global, room: usize, text: &str, placement: Placement) {
    let (place, capacity) = placement;
    let string = string_with_room(alloc, room, text).expect(rt, "memory");
    let value = CompactString::from(string);
    assert_that!(rt, is_at(&value, place, capacity, text));
    let string = string_with_room(alloc, room, text).expect(rt, "memory");
    let value = CompactString::from_cow(alloc, CowStr::Owned(string)).expect(rt, "memory");
    assert_that!(rt, is_at(&value, place, capacity, text));
}

#[test]
fn strings_keep_their_buffer_or_move_inline(rt: HostRuntime) {
    let rt = &rt;
    let alloc = rt.alloc();
    assert_reused(rt, alloc, 100, "", ("inline", 24));
    assert_reused(rt, alloc, 256, "abc", ("inline", 24));
    assert_reused(rt, alloc, 30, ascii_text(30), ("heap", 30));
    assert_reused(rt, alloc, 31, ascii_text(30), ("heap", 31));
    assert_reused(rt, alloc, 100, ascii_text(30), ("heap", 100));
}

/// The same for a vector of bytes and a box.
fn assert_bytes_and_box(
    rt: &impl Abort,
    alloc: Global,
    room: usize,
    text: &str,
    placement: Placement,
) {
    let (place, capacity) = placement;
    let string = string_with_room(alloc, room, text).expect(rt, "memory");
    let value = CompactString::try_from(string.into_bytes()).expect(rt, "a text");
    assert_that!(rt, is_at(&value, place, capacity, text));
    let string = string_with_room(alloc, room, text).expect(rt, "memory");
    let value = CompactString::from(string.into_boxed_str());
    assert_that!(rt, is_at(&value, place, capacity, text));
}

#[test]
fn bytes_and_boxes_keep_their_buffer_or_move_inline(rt: HostRuntime) {
    let rt = &rt;
    let alloc = rt.alloc();
    assert_bytes_and_box(rt, alloc, 100, "", ("inline", 24));
    assert_bytes_and_box(rt, alloc, 256, "abc", ("inline", 24));
    assert_bytes_and_box(rt, alloc, 90, ascii_text(30), ("heap", 90));
    assert_bytes_and_box(rt, alloc, 100, ascii_text(40), ("heap", 100));
}

/// Asserts that bytes are not valid UTF-8 and are returned unchanged.
fn assert_invalid(rt: &impl Abort, alloc: Global, bytes: &[u8]) {
    let vector = Vec::from_slice(alloc, bytes).expect(rt, "memory");
    match CompactString::try_from(vector) {
        Ok(_) => panic!(rt; "these bytes are no text"),
        Err(error) => assert_equal!(rt, error.as_bytes(), bytes),
    }
}

#[test]
fn invalid_bytes_are_returned(rt: HostRuntime) {
    let alloc = rt.alloc();
    assert_invalid(&rt, alloc, &[0xc3]);
    assert_invalid(&rt, alloc, &[0x61, 0xff]);
    assert_invalid(&rt, alloc, &[0xed, 0xa0, 0x80]);
}

#[test]
fn a_string_buffer_is_kept_even_if_short(rt: HostRuntime) {
    let alloc = rt.alloc();
    let none = CompactString::from_string_buffer(string_with_room(alloc, 100, "").expect(
        &rt, "memory",
    ));
    assert_that!(&rt, is_heap(&none, 100, ascii_text(0)));
    let unbuffered = CompactString::from_string_buffer(String::new(alloc));
    assert_that!(&rt, is_inline(&unbuffered, ""));
}

#[test]
fn a_value_takes_32_bytes(rt: HostRuntime) {
    assert_equal!(&rt, size_of::<CompactString>(), 32);
}
