//! Texts of numbers and other values.

use compact_asserts::{assert_equal, assert_that};
use compact_ext::ToCompactString;
use compact_str::CompactString;
use compact_testing::checks::{is_at, is_heap, is_inline};
use compact_testing::values::{ascii_text, short, string_with_room};
use std::alloc::Global;
use std::borrow::CowStr;
use std::boxed::BoxedStr;
use std::num::{NonZeroI128, NonZeroU8, NonZeroU128};
use std::process::Abort;

/// Returns the text of a value, asserting that both calls agree.
fn shown<T: ToCompactString>(rt: &impl Abort, alloc: Global, value: T) -> CompactString
where
    T: Drop,
{
    let first = value.to_compact_string(alloc).expect(rt, "memory");
    let second = value.try_to_compact_string(alloc).expect(rt, "memory");
    assert_that!(rt, first == second);
    assert_that!(rt, first.is_heap_allocated() == second.is_heap_allocated());
    first
}

/// Asserts the text of a value, inline.
fn assert_shown<T: ToCompactString + Drop>(rt: &impl Abort, alloc: Global, value: T, text: &str) {
    assert_that!(rt, is_inline(&shown(rt, alloc, value), text));
}

/// Asserts the text of a value, on the heap with just the capacity that it needs.
fn assert_long<T: ToCompactString + Drop>(rt: &impl Abort, alloc: Global, value: T, text: &str) {
    assert_that!(
        rt,
        is_at(&shown(rt, alloc, value), "heap", text.len(), text),
    );
}

#[test]
fn long_numbers_have_these_texts(rt: HostRuntime) {
    let rt = &rt;
    let alloc = rt.alloc();
    assert_shown(rt, alloc, i32::MIN, "-2147483648");
    assert_shown(rt, alloc, u32::MAX, "4294967295");
    assert_shown(rt, alloc, 9999999999999999999u64, "9999999999999999999");
    assert_shown(rt, alloc, 10000000000000000000u64, "10000000000000000000");
    assert_shown(rt, alloc, u64::MAX, "18446744073709551615");
    assert_shown(rt, alloc, i64::MIN, "-9223372036854775808");
    assert_shown(rt, alloc, 0u128, "0");
    assert_shown(rt, alloc, -1i128, "-1");
    assert_shown(rt, alloc, NonZeroU128::MIN, "1");
    assert_shown(rt, alloc, NonZeroU8::MAX, "255");
    let most = "340282366920938463463374607431768211455";
    assert_long(rt, alloc, u128::MAX, most);
    let least = "-170141183460469231731687303715884105728";
    assert_long(rt, alloc, i128::MIN, least);
    assert_long(rt, alloc, NonZeroI128::MIN, least);
}

#[test]
fn other_values_have_these_texts(rt: HostRuntime) {
    let rt = &rt;
    let alloc = rt.alloc();
    assert_shown(rt, alloc, 'a', "a");
    assert_shown(rt, alloc, "äb", "äb");
    assert_shown(rt, alloc, short(alloc, "äb"), "äb");
    let owned = string_with_room(alloc, 256, "abc").expect(rt, "memory");
    assert_shown(rt, alloc, owned, "abc");
}

/// Asserts the text of a value of 30 characters, on the heap with the minimum capacity.
fn assert_thirty<T: ToCompactString + Drop>(rt: &impl Abort, alloc: Global, value: T) {
    assert_that!(rt, is_heap(&shown(rt, alloc, value), 32, ascii_text(30)));
}

#[test]
fn boxes_and_cows_have_these_texts(rt: HostRuntime) {
    let rt = &rt;
    let alloc = rt.alloc();
    let short = BoxedStr::from_str(alloc, "äb").expect(rt, "memory");
    assert_shown(rt, alloc, short, "äb");
    let long = BoxedStr::from_str(alloc, ascii_text(30)).expect(rt, "memory");
    assert_thirty(rt, alloc, long);
    let owned = string_with_room(alloc, 256, "abc").expect(rt, "memory");
    assert_shown(rt, alloc, CowStr::Owned(owned), "abc");
    assert_shown(rt, alloc, CowStr::Borrowed("äb"), "äb");
    assert_thirty(rt, alloc, CowStr::Borrowed(ascii_text(30)));
}

/// Asserts the bytes of an inline value.
fn assert_packed(rt: &impl Abort, value: &CompactString, bytes: &[u8; 24]) {
    assert_equal!(rt, &value.packed().expect(rt, "inline"), bytes);
}

#[test]
fn numbers_have_these_bytes(rt: HostRuntime) {
    let rt = &rt;
    let alloc = rt.alloc();
    let two = b"42\0\0\0\0\0\0\0\0\0\0\0\0\0\0\0\0\0\0\0\0\0\xc2";
    assert_packed(rt, &shown(rt, alloc, 42u8), two);
    let twenty = b"-9223372036854775808\0\0\0\xd4";
    assert_packed(rt, &shown(rt, alloc, i64::MIN), twenty);
}
