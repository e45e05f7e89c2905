//! The same with no memory: up to 24 bytes succeed and more fail, whatever the hint.

use crate::asserts::assert_inline;
use crate::hinting_iterator::with_hint;
use crate::results::{assert_fails, values_of};
use crate::size_hints::{
    assert_appended, assert_characters, assert_collected, assert_extended, assert_joined,
    assert_texts,
};
use compact_asserts::assert_equal;
use compact_str::{CompactString, append_all};
use compact_testing::memory::take_all;
use compact_testing::values::ascii_text;
use std::alloc::Global;
use std::process::Abort;

#[test]
fn no_hint_makes_a_call_allocate(rt: HostRuntime) {
    let rt = &rt;
    let alloc = rt.alloc();
    let hog = take_all(alloc).expect(rt, "room for the list of blocks");
    for too_much in [false, true] {
        assert_collected(rt, alloc, too_much);
        assert_extended(rt, alloc, too_much);
    }
    drop(hog);
}

#[test]
fn texts_are_appended_to_a_string_that_has_room(rt: HostRuntime) {
    let rt = &rt;
    let alloc = rt.alloc();
    let values = values_of(rt, alloc, &["a", "bc"]);
    let mut line = String::with_capacity(alloc, 32).expect(rt, "memory");
    let hog = take_all(alloc).expect(rt, "room for the list of blocks");
    assert_appended(rt, &mut line, &values, false);
    assert_appended(rt, &mut line, &values, true);
    drop(hog);
    assert_equal!(rt, line.capacity(), 32);
}

/// Asserts that more than 24 bytes of texts or characters fail.
fn assert_long_fails(rt: &impl Abort, alloc: Global, too_much: bool) {
    assert_texts(rt, alloc, &[ascii_text(20), ascii_text(5)], None, too_much);
    assert_joined(rt, alloc, &["a", "b"], ascii_text(23), None, too_much);
    assert_characters(rt, alloc, &['€'; 9], None, too_much);
}

#[test]
fn more_than_24_bytes_fail(rt: HostRuntime) {
    let alloc = rt.alloc();
    let hog = take_all(alloc).expect(&rt, "room for the list of blocks");
    for too_much in [false, true] {
        assert_long_fails(&rt, alloc, too_much);
    }
    drop(hog);
}

/// Asserts that an extension stops at the first item that fails, keeping those before it.
fn assert_stops(rt: &impl Abort, alloc: Global, too_much: bool) {
    let mut value = CompactString::default(alloc);
    let texts = [ascii_text(20), ascii_text(4), "b", ""];
    assert_fails(
        rt,
        "extend_texts",
        value.extend_texts(with_hint(&texts, too_much)),
    );
    assert_inline(rt, &value, ascii_text(24));
    assert_fails(
        rt,
        "extend, texts",
        value.extend(with_hint(&["", "b"], too_much)),
    );
    assert_fails(
        rt,
        "extend, characters",
        value.extend(with_hint(&['b'], too_much)),
    );
    assert_inline(rt, &value, ascii_text(24));
    let mut value = CompactString::default(alloc);
    assert_fails(
        rt,
        "extend_chars",
        value.extend_chars(with_hint(&['€'; 9], too_much).copied()),
    );
    assert_inline(rt, &value, "€€€€€€€€");
}

#[test]
fn an_extension_stops_at_the_item_that_fails(rt: HostRuntime) {
    let alloc = rt.alloc();
    let hog = take_all(alloc).expect(&rt, "room for the list of blocks");
    assert_stops(&rt, alloc, false);
    assert_stops(&rt, alloc, true);
    drop(hog);
}

/// Asserts that only the first of these values is appended to an empty string, then clears it.
fn assert_append_stops(
    rt: &impl Abort,
    line: &mut String,
    values: &[CompactString],
    too_much: bool,
) {
    assert_fails(
        rt,
        "append_all",
        append_all(line, with_hint(values, too_much)),
    );
    assert_equal!(rt, line.as_str(), "ab");
    line.clear();
}

#[test]
fn an_append_to_a_string_stops_at_the_value_that_fails(rt: HostRuntime) {
    let rt = &rt;
    let alloc = rt.alloc();
    let values = values_of(rt, alloc, &["ab", ascii_text(80), "c"]);
    let mut line = String::with_capacity(alloc, 40).expect(rt, "memory");
    let hog = take_all(alloc).expect(rt, "room for the list of blocks");
    assert_append_stops(rt, &mut line, &values, false);
    assert_append_stops(rt, &mut line, &values, true);
    drop(hog);
}
