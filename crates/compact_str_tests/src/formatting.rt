//! `Debug` and `Display`. Expected is what Rust prints for a `str`.

use crate::results::assert_shown;
use compact_asserts::assert_that;
use compact_str::{CompactString, FromJsonError, ReserveError};
use compact_testing::values::{ascii_text, lasting, short};

#[test]
fn a_value_is_shown_as_its_text(rt: HostRuntime) {
    let rt = &rt;
    let alloc = rt.alloc();
    let value = short(alloc, "äb");
    assert_shown(rt, format!(in alloc; "{value}"), "äb");
    assert_shown(rt, format!(in alloc; "<{value}>"), "<äb>");
    let long = lasting(alloc, 40);
    assert_shown(rt, format!(in alloc; "{long}"), ascii_text(40));
    let empty = CompactString::default(alloc);
    assert_shown(rt, format!(in alloc; "{empty}"), "");
}

#[test]
fn a_width_pads_by_characters(rt: HostRuntime) {
    let rt = &rt;
    let alloc = rt.alloc();
    let value = short(alloc, "äb");
    assert_shown(rt, format!(in alloc; "{value:*>5}"), "***äb");
    assert_shown(rt, format!(in alloc; "{value:*^6}"), "**äb**");
    assert_shown(rt, format!(in alloc; "{value:>9}"), "       äb");
    assert_shown(rt, format!(in alloc; "{value:4}|"), "äb  |");
    assert_shown(rt, format!(in alloc; "{value:€<3}"), "äb€");
}

#[test]
fn a_precision_cuts_by_characters(rt: HostRuntime) {
    let alloc = rt.alloc();
    let value = short(alloc, "€äb😀");
    assert_shown(&rt, format!(in alloc; "{value:.2}"), "€ä");
    assert_shown(&rt, format!(in alloc; "{value:.4}"), "€äb😀");
    assert_shown(&rt, format!(in alloc; "{value:->6.3}"), "---€äb");
}

#[test]
fn debug_quotes_and_escapes(rt: HostRuntime) {
    let alloc = rt.alloc();
    let value = short(alloc, "ä\"b\\\n\t€😀");
    assert_shown(
        &rt,
        format!(in alloc; "{value:?}"),
        "\"ä\\\"b\\\\\\n\\t€😀\"",
    );
    let empty = CompactString::default(alloc);
    assert_shown(&rt, format!(in alloc; "{empty:?}"), "\"\"");
}

#[test]
fn errors_have_these_texts(rt: HostRuntime) {
    let rt = &rt;
    let alloc = rt.alloc();
    let text = "Cannot allocate memory to hold CompactString";
    assert_shown(rt, format!(in alloc; "{ReserveError}"), text);
    let error = FromJsonError::NotAString;
    assert_shown(rt, format!(in alloc; "{error}"), "not a JSON string");
    let error = FromJsonError::from(ReserveError);
    assert_that!(rt, matches!(error, FromJsonError::Reserve(ReserveError)));
    assert_shown(rt, format!(in alloc; "{error}"), text);
}
