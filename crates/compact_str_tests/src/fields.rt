//! Values in serde, as JSON.

use compact_asserts::{assert_equal, assert_that};
use compact_str::CompactString;
use compact_testing::checks::{are_texts, is_fitted};
use compact_testing::values::{append, lasting, value_of};
use std::alloc::Global;
use std::process::Abort;

/// Returns a text of `count` bytes: `x`s, then characters while they fit.
fn filled(rt: &impl Abort, alloc: Global, character: &str, count: usize) -> CompactString {
    let mut text = value_of(alloc, "").expect(rt, "memory");
    let width = character.len().max(1);
    for _ in 0..count % width {
        append(&mut text, "x").expect(rt, "memory");
    }
    for _ in 0..count / width {
        append(&mut text, character).expect(rt, "memory");
    }
    text
}

/// Writes a value.
fn written(rt: &impl Abort, alloc: Global, value: &CompactString) -> String {
    serde_json::to_string(alloc, value).expect(rt, "memory")
}

/// Reads a value.
fn read(rt: &impl Abort, alloc: Global, text: &str) -> CompactString {
    serde_json::from_str(alloc, text).expect(rt, "a JSON string")
}

/// Asserts that a value is written as its text in quotes, and is read back with its text, inline up to 24 bytes.
fn goes_round(rt: &impl Abort, alloc: Global, value: &CompactString) {
    let json = written(rt, alloc, value);
    let inner = json.strip_prefix('"').expect(rt, "a quote");
    assert_equal!(rt, inner.strip_suffix('"'), Some(value.as_str()));
    assert_that!(
        rt,
        is_fitted(&read(rt, alloc, json.as_str()), value.as_str())
    );
}

/// Asserts this for each length up to 60 bytes.
fn all_go_round(rt: &impl Abort, alloc: Global, character: &str) {
    for count in 0..=60 {
        let text = filled(rt, alloc, character, count);
        assert_equal!(rt, text.len(), count);
        goes_round(rt, alloc, &text);
    }
}

#[test]
fn texts_of_every_width_and_length_are_read_back(rt: HostRuntime) {
    for character in ["a", "é", "€", "𝄞"] {
        all_go_round(&rt, rt.alloc(), character);
    }
}

#[test]
fn a_static_value_is_written_too(rt: HostRuntime) {
    goes_round(&rt, rt.alloc(), &lasting(rt.alloc(), 30));
    goes_round(&rt, rt.alloc(), &lasting(rt.alloc(), 3));
}

/// Asserts the JSON of a value, and that it is read back.
fn is_written(rt: &impl Abort, alloc: Global, value: &CompactString, json: &str) {
    assert_equal!(rt, written(rt, alloc, value).as_str(), json);
    assert_that!(rt, is_fitted(&read(rt, alloc, json), value.as_str()));
}

#[test]
fn what_json_escapes_is_read_back(rt: HostRuntime) {
    let alloc = rt.alloc();
    for (text, json) in [
        ("a\"b", r#""a\"b""#),
        ("\\", r#""\\""#),
        ("ä\n", r#""ä\n""#),
        ("\u{1}", r#""\u0001""#),
        (
            "a line of more than 24 bytes\n",
            r#""a line of more than 24 bytes\n""#,
        ),
    ] {
        is_written(
            &rt,
            alloc,
            &value_of(alloc, text).expect(&rt, "memory"),
            json,
        );
    }
}

#[test]
fn escapes_that_no_writer_makes_are_read(rt: HostRuntime) {
    let rt = &rt;
    let alloc = rt.alloc();
    assert_that!(rt, is_fitted(&read(rt, alloc, r#""\u00eb""#), "ë"));
    assert_that!(rt, is_fitted(&read(rt, alloc, r#""\ud834\udd1e""#), "𝄞"));
    assert_that!(rt, is_fitted(&read(rt, alloc, r#" "a\/b" "#), "a/b"));
}

#[test]
fn texts_of_a_list_are_read_in_order(rt: HostRuntime) {
    let texts = ["a\n", "b", "c\n"];
    let row: Vec<CompactString> = serde_json::from_str(rt.alloc(), r#"["a\n","b","c\n"]"#).expect(
        &rt,
        "a row of texts",
    );
    assert_that!(&rt, are_texts(row.as_slice(), &texts));
}

/// Asserts that a JSON text is not a valid string.
fn assert_unread(rt: &impl Abort, alloc: Global, json: &str) {
    let read: Result<CompactString, serde_json::Error> = serde_json::from_str(alloc, json);
    assert_that!(rt, read.is_err());
}

#[test]
fn only_a_json_string_is_read(rt: HostRuntime) {
    for json in [
        "12",
        "null",
        "true",
        "[\"a\"]",
        "{\"a\":\"b\"}",
        "\"a",
        "",
        "\"\\ud834\"",
    ] {
        assert_unread(&rt, rt.alloc(), json);
    }
}
