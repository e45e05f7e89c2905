//! Tests of the callers in `read.rt`.

use compact_asserts::{assert_equal, assert_that};
use compact_callers::read::{greet, next_line, what_is_left};
use compact_testing::checks::is_inline;
use compact_testing::values::short;

#[test]
fn lines_are_read(rt: HostRuntime) {
    let rt = &rt;
    let alloc = rt.alloc();
    let mut reader: &[u8] = b"caf\xC3\xA9\nab";
    let line = next_line(alloc, &mut reader).expect(rt, "a line");
    assert_that!(rt, is_inline(&line, "café\n"));
    let line = next_line(alloc, &mut reader).expect(rt, "a line");
    assert_that!(rt, is_inline(&line, "ab"));
    let line = next_line(alloc, &mut reader).expect(rt, "no line");
    assert_that!(rt, is_inline(&line, ""));
}

#[test]
fn what_is_left_is_read(rt: HostRuntime) {
    let rt = &rt;
    let alloc = rt.alloc();
    let mut reader: &[u8] = b"a\n\xC3\xA9";
    let text = what_is_left(alloc, &mut reader).expect(rt, "a text");
    assert_that!(rt, is_inline(&text, "a\né"));
    let mut reader: &[u8] = b"\xC3";
    assert_that!(rt, what_is_left(alloc, &mut reader).is_err());
}

#[test]
fn a_string_and_a_value_are_written_to(rt: HostRuntime) {
    let rt = &rt;
    let alloc = rt.alloc();
    let mut string = String::new(alloc);
    greet(&mut string, "Zoë").expect(rt, "memory");
    assert_equal!(rt, string.as_str(), "Hello, Zoë!");
    let mut value = short(alloc, "> ");
    greet(&mut value, "Zoë").expect(rt, "memory");
    assert_that!(rt, is_inline(&value, "> Hello, Zoë!"));
}
