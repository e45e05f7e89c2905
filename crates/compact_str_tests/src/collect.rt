//! Collecting, joining and extending. Values were worked out by hand from the rules.

use crate::results::assert_made_inline;
use compact_asserts::{assert_equal, assert_that};
use compact_str::{AsText, CompactString, CompactStringExt, append_all};
use compact_testing::checks::is_inline;
use compact_testing::values::{ascii_text, string_with_room, values_of};
use std::alloc::Global;
use std::borrow::CowStr;
use std::boxed::BoxedStr;
use std::iter::once;
use std::process::Abort;

/// Asserts the result of joining texts.
fn is_joined(rt: &impl Abort, alloc: Global, texts: &[&str], separator: &str, text: &str) {
    assert_made_inline(
        rt,
        texts.iter().copied().join_compact(alloc, separator),
        text,
    );
}

/// Asserts the result of concatenating four texts.
fn is_concatenated(rt: &impl Abort, alloc: Global, texts: [&str; 4], text: &str) {
    assert_made_inline(rt, texts.into_iter().concat_compact(alloc), text);
}

#[test]
fn items_are_joined_and_concatenated(rt: HostRuntime) {
    let rt = &rt;
    let alloc = rt.alloc();
    is_joined(
        rt,
        alloc,
        &["apples", "oranges", "bananas"],
        ", ",
        "apples, oranges, bananas",
    );
    is_joined(rt, alloc, &[], "-", "");
    is_joined(rt, alloc, &["a"], "-", "a");
    is_joined(rt, alloc, &["a", ""], "-", "a-");
    is_joined(rt, alloc, &["", "", "b"], "-", "--b");
    is_concatenated(rt, alloc, ["hello", " ", "world", "!"], "hello world!");
}

/// Extends a value by one item.
fn extend_by<T: AsText + Drop>(rt: &impl Abort, value: &mut CompactString, item: T) {
    value.extend_texts(once(item)).expect(rt, "memory");
}

/// Collects each of the five kinds of text alone.
fn each_kind(rt: &impl Abort, alloc: Global) -> CompactString {
    let mut value = CompactString::default(alloc);
    let string = String::from_str(alloc, "b").expect(rt, "memory");
    let boxed = BoxedStr::from_str(alloc, "c").expect(rt, "memory");
    extend_by(rt, &mut value, "a");
    extend_by(rt, &mut value, string);
    extend_by(rt, &mut value, boxed);
    extend_by(rt, &mut value, CowStr::Borrowed("d"));
    extend_by(rt, &mut value, CompactString::const_new(alloc, "e"));
    value
}

#[test]
fn the_five_kinds_of_text_are_items(rt: HostRuntime) {
    let value = each_kind(&rt, rt.alloc());
    assert_that!(&rt, is_inline(&value, "abcde"));
    assert_equal!(&rt, (&value).text(), "abcde");
}

#[test]
fn texts_by_value_are_items_of_the_traits(rt: HostRuntime) {
    let rt = &rt;
    let mut value: CompactString = ["a", "bc"]
        .into_iter()
        .collect(rt.alloc())
        .expect(rt, "memory");
    assert_that!(rt, is_inline(&value, "abc"));
    value.extend(["äb€", "x"]).expect(rt, "memory");
    assert_that!(rt, is_inline(&value, "abcäb€x"));
}

#[test]
fn values_are_appended_to_a_string(rt: HostRuntime) {
    let rt = &rt;
    let alloc = rt.alloc();
    let mut line = String::from_str(alloc, "a").expect(rt, "memory");
    let values = values_of(alloc, &["b", ascii_text(30)]).expect(rt, "memory");
    append_all(&mut line, values).expect(rt, "memory");
    assert_equal!(rt, line.as_str(), "abaaaaaaaaaaaaaaaaaaaaaaaaaaaaaa");
}

#[test]
fn a_string_is_extended_by_values_and_collected_of_them(rt: HostRuntime) {
    let rt = &rt;
    let alloc = rt.alloc();
    let mut line = String::from_str(alloc, "a").expect(rt, "memory");
    let values = values_of(alloc, &["é", ascii_text(30)]).expect(rt, "memory");
    line.extend(values).expect(rt, "memory");
    assert_equal!(rt, line.as_str(), "aéaaaaaaaaaaaaaaaaaaaaaaaaaaaaaa");
    let values = values_of(alloc, &["b", ""]).expect(rt, "memory");
    let whole: String = values.into_iter().collect(alloc).expect(rt, "memory");
    assert_equal!(rt, whole.as_str(), "b");
}

#[test]
fn an_append_that_fits_keeps_the_capacity_of_a_string(rt: HostRuntime) {
    let rt = &rt;
    let alloc = rt.alloc();
    let mut line = string_with_room(alloc, 40, "a").expect(rt, "memory");
    let values = values_of(alloc, &["é", ascii_text(37)]).expect(rt, "memory");
    append_all(&mut line, values).expect(rt, "memory");
    assert_equal!(rt, line.len(), 40);
    assert_equal!(rt, line.capacity(), 40);
}
