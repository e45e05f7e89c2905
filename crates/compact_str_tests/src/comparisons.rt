//! Comparing and hashing.

use compact_asserts::{assert_equal, assert_that, that};
use compact_str::CompactString;
use compact_testing::checks::{hash_of, is_heap, is_static};
use compact_testing::values::{
    append, ascii_text, lasting, short, string_with_room, value_of, with_room,
};
use std::cmp::Ordering;
use std::hash::{DefaultHasher, Hash, Hasher};
use std::process::Abort;

/// Returns the `DefaultHasher` hash of a `str`.
fn hash_of_str(text: &str) -> u64 {
    let mut hasher = DefaultHasher::new();
    text.hash(&mut hasher);
    hasher.finish()
}

/// Asserts that two values are the same in each way.
fn assert_same(rt: &impl Abort, value: &CompactString, other: &CompactString) {
    assert_that!(rt, value == other);
    assert_that!(rt, other == value);
    assert_equal!(rt, value.cmp(other), Ordering::Equal);
    assert_equal!(rt, value.partial_cmp(other), Some(Ordering::Equal));
    assert_equal!(rt, hash_of(value), hash_of(other));
    assert_equal!(rt, hash_of(value), hash_of_str(other.as_str()));
}

/// Asserts that one value is less than another.
fn assert_less(rt: &impl Abort, value: &CompactString, other: &CompactString) {
    assert_that!(rt, value != other);
    assert_equal!(rt, value.cmp(other), Ordering::Less);
    assert_equal!(rt, other.cmp(value), Ordering::Greater);
    assert_equal!(rt, value.partial_cmp(other), Some(Ordering::Less));
}

#[test]
fn places_and_capacities_are_ignored(rt: HostRuntime) {
    let rt = &rt;
    let alloc = rt.alloc();
    let borrowed = lasting(alloc, 30);
    let made = value_of(alloc, ascii_text(30)).expect(rt, "memory");
    let text = string_with_room(alloc, 90, ascii_text(30)).expect(rt, "memory");
    let taken_over = CompactString::from_string_buffer(text);
    assert_that!(rt, is_static(&borrowed, ascii_text(30)));
    assert_that!(rt, is_heap(&made, 32, ascii_text(30)));
    assert_that!(rt, is_heap(&taken_over, 90, ascii_text(30)));
    assert_same(rt, &borrowed, &made);
    assert_same(rt, &made, &taken_over);
    assert_same(rt, &taken_over, &borrowed);
}

/// Keeps the first three bytes.
fn cut_to_3(rt: &impl Abort, value: &mut CompactString) {
    that(value.is_char_boundary(3)).expect(rt, "it holds");
    value.truncate(3);
}

#[test]
fn old_bytes_after_the_text_are_ignored(rt: HostRuntime) {
    let rt = &rt;
    let alloc = rt.alloc();
    let plain = short(alloc, "äb");
    let mut inline = short(alloc, "äbcdefghijklmn");
    cut_to_3(rt, &mut inline);
    assert_same(rt, &plain, &inline);
    let mut heap = with_room(alloc, 60).expect(rt, "memory");
    append(&mut heap, "äbcdefghijklmnopqrstuvwxyz0123456789").expect(rt, "memory");
    cut_to_3(rt, &mut heap);
    assert_same(rt, &inline, &heap);
}

#[test]
fn texts_are_in_this_order(rt: HostRuntime) {
    let alloc = rt.alloc();
    let texts = ["", "a", "ab", "b", "\u{fffd}", "\u{10000}"];
    for i in 1..texts.len() {
        let value = value_of(alloc, texts[i - 1]).expect(&rt, "memory");
        let next = value_of(alloc, texts[i]).expect(&rt, "memory");
        assert_less(&rt, &value, &next);
    }
}
