//! Items with a useless or too large hint: each call depends only on the items.

use crate::asserts::assert_inline;
use crate::hinting_iterator::with_hint;
use crate::results::assert_made;
use compact_asserts::{assert_equal, assert_that};
use compact_str::{CompactString, CompactStringExt, append_all};
use compact_testing::checks::is_at;
use compact_testing::values::{ascii_text, short};
use std::alloc::Global;
use std::process::Abort;

/// Asserts the result of each call that concatenates texts; `None` if it fails.
pub fn assert_texts(
    rt: &impl Abort,
    alloc: Global,
    texts: &[&str],
    wanted: Option<&str>,
    too_much: bool,
) {
    assert_made(
        rt,
        "from_texts",
        CompactString::from_texts(alloc, with_hint(texts, too_much)),
        wanted,
    );
    assert_made(
        rt,
        "concat_compact",
        with_hint(texts, too_much).concat_compact(alloc),
        wanted,
    );
    assert_made(
        rt,
        "collect, texts",
        with_hint(texts, too_much).collect(alloc),
        wanted,
    );
}

/// Asserts the result of joining texts; `None` if it fails.
pub fn assert_joined(
    rt: &impl Abort,
    alloc: Global,
    texts: &[&str],
    separator: &str,
    wanted: Option<&str>,
    too_much: bool,
) {
    assert_made(
        rt,
        "join_compact",
        with_hint(texts, too_much).join_compact(alloc, separator),
        wanted,
    );
}

/// Asserts the result of each call on characters; `None` if it fails.
pub fn assert_characters(
    rt: &impl Abort,
    alloc: Global,
    characters: &[char],
    wanted: Option<&str>,
    too_much: bool,
) {
    assert_made(
        rt,
        "from_chars",
        CompactString::from_chars(alloc, with_hint(characters, too_much).copied()),
        wanted,
    );
    assert_made(
        rt,
        "collect, characters",
        with_hint(characters, too_much).copied().collect(alloc),
        wanted,
    );
    assert_made(
        rt,
        "collect, borrowed characters",
        with_hint(characters, too_much).collect(alloc),
        wanted,
    );
}

/// Asserts the result of collecting a few items, without memory.
pub fn assert_collected(rt: &impl Abort, alloc: Global, too_much: bool) {
    let texts = ["a", "", "bc"];
    assert_texts(rt, alloc, &texts, Some("abc"), too_much);
    assert_joined(rt, alloc, &texts, "-", Some("a--bc"), too_much);
    assert_characters(rt, alloc, &['a', 'b', 'c'], Some("abc"), too_much);
}

/// Asserts that a value is extended up to 24 bytes, without memory.
pub fn assert_extended(rt: &impl Abort, alloc: Global, too_much: bool) {
    let mut value = CompactString::default(alloc);
    let characters = ['ä', '€'];
    let texts = [ascii_text(5), "", ascii_text(5)];
    value
        .extend_chars(with_hint(&characters, too_much).copied())
        .expect(rt, "no memory is needed");
    value
        .extend_texts(with_hint(&texts, too_much))
        .expect(rt, "no memory is needed");
    assert_inline(rt, &value, "ä€aaaaaaaaaa");
    value
        .extend(with_hint(&characters, too_much).copied())
        .expect(rt, "no memory is needed");
    value
        .extend(with_hint(&['x'], too_much))
        .expect(rt, "no memory is needed");
    value
        .extend(with_hint(&["yz", ""], too_much))
        .expect(rt, "no memory is needed");
    assert_inline(rt, &value, "ä€aaaaaaaaaaä€xyz");
}

/// Asserts that values are appended to a `String` with room for them.
pub fn assert_appended(
    rt: &impl Abort,
    line: &mut String,
    values: &[CompactString],
    too_much: bool,
) {
    assert_that!(rt, append_all(line, with_hint(values, too_much)).is_ok());
    assert_equal!(rt, line.as_str(), "abc");
    line.clear();
}

/// Asserts results of more than 24 bytes, on the heap.
fn assert_long(rt: &impl Abort, alloc: Global, too_much: bool) {
    let texts = [ascii_text(20), "", ascii_text(5)];
    assert_texts(rt, alloc, &texts, Some(ascii_text(25)), too_much);
    let joined = Some(ascii_text(45));
    assert_joined(rt, alloc, &texts, ascii_text(10), joined, too_much);
    assert_characters(rt, alloc, &['€'; 9], Some("€€€€€€€€€"), too_much);
}

#[test]
fn a_long_text_depends_on_the_items_alone(rt: HostRuntime) {
    let alloc = rt.alloc();
    assert_long(&rt, alloc, false);
    assert_long(&rt, alloc, true);
}

/// Extends a static string of 30 bytes by nothing and by one character, and 24 bytes by one character: room is made
/// item by item, growing by half.
fn assert_room(rt: &impl Abort, alloc: Global, too_much: bool) {
    let mut value = CompactString::const_new(alloc, ascii_text(30));
    value
        .extend_texts(with_hint(&["", ""], too_much))
        .expect(rt, "no memory is needed");
    assert_that!(rt, is_at(&value, "static", 30, ascii_text(30)));
    value
        .extend_texts(with_hint(&["a"], too_much))
        .expect(rt, "memory");
    assert_that!(rt, is_at(&value, "heap", 45, ascii_text(31)));
    let mut value = short(alloc, ascii_text(24));
    value
        .extend_chars(with_hint(&['a'], too_much).copied())
        .expect(rt, "memory");
    assert_that!(rt, is_at(&value, "heap", 36, ascii_text(25)));
    value
        .extend(with_hint(&["a", ""], too_much))
        .expect(rt, "memory");
    assert_that!(rt, is_at(&value, "heap", 36, ascii_text(26)));
}

#[test]
fn an_extension_makes_room_item_by_item(rt: HostRuntime) {
    let alloc = rt.alloc();
    assert_room(&rt, alloc, false);
    assert_room(&rt, alloc, true);
}
