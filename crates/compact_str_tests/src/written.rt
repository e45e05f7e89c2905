//! `write!`, `writeln!`, `write` and `writeln`: the text appended, and the value on `Err`.

use compact_asserts::{assert_equal, assert_that};
use compact_str::{CompactString, ReserveError};
use compact_testing::checks::{is_heap, is_inline, is_static};
use compact_testing::values::{ascii_text, lasting, short};
use std::fmt;
use std::fmt::Display;

/// Writes one character, then fails without an allocation failing.
#[derive(Drop)]
struct Half;

impl Display for Half {
    fn fmt<W: fmt::Write>(&self, f: &mut fmt::Formatter<W>) -> fmt::Result {
        f.write_str("a")?;
        Err(fmt::Error)
    }
}

/// Without an import, a write has the error of an append.
fn write_count(line: &mut CompactString, name: &str, count: u32) -> Result<(), ReserveError> {
    write!(line, "{name}: {count}")
}

#[test]
fn what_is_shown_is_appended(rt: HostRuntime) {
    let rt = &rt;
    let mut line = short(rt.alloc(), "§ ");
    write_count(&mut line, "größe", 12).expect(rt, "memory");
    assert_that!(rt, is_inline(&line, "§ größe: 12"));
    line.write('é').expect(rt, "memory");
    assert_that!(rt, is_inline(&line, "§ größe: 12é"));
    line.writeln(7).expect(rt, "memory");
    assert_that!(rt, is_inline(&line, "§ größe: 12é7\n"));
    writeln!(line, "{}", "€").expect(rt, "memory");
    assert_that!(rt, is_inline(&line, "§ größe: 12é7\n€\n"));
}

#[test]
fn a_write_grows_once_as_an_append_does(rt: HostRuntime) {
    let rt = &rt;
    let alloc = rt.alloc();
    let mut full = short(alloc, ascii_text(24));
    write!(full, "{}{}", 'a', "aaaaaaaaaa").expect(rt, "memory");
    assert_that!(rt, is_heap(&full, 36, ascii_text(35)));
    let mut text = lasting(alloc, 30);
    write!(text, "{}", "").expect(rt, "memory");
    assert_that!(rt, is_static(&text, ascii_text(30)));
    write!(text, "{}", 'a').expect(rt, "memory");
    assert_that!(rt, is_heap(&text, 45, ascii_text(31)));
}

#[test]
fn more_than_1024_bytes_are_written(rt: HostRuntime) {
    let rt = &rt;
    let mut line = short(rt.alloc(), "ä");
    write!(line, "{:>1100}{:>1100}", 7, 'é').expect(rt, "memory");
    assert_equal!(rt, line.len(), 2203);
    assert_that!(rt, line.starts_with("ä "));
    assert_that!(rt, line.ends_with(" é"));
    assert_equal!(rt, line.find('7'), Some(1101));
}

#[test]
fn a_cleared_line_keeps_its_capacity_until_a_text_exceeds_it(rt: HostRuntime) {
    let rt = &rt;
    let alloc = rt.alloc();
    let mut line = CompactString::with_capacity(alloc, 400).expect(rt, "memory");
    for len in [125, 200] {
        let text = short(alloc, "é").repeat(len).expect(rt, "memory");
        write!(line, "{text}").expect(rt, "memory");
        assert_that!(rt, is_heap(&line, 400, text.as_str()));
        line.clear();
    }
    write!(line, "{:>398}é", 7).expect(rt, "memory");
    assert_equal!(
        rt,
        (line.len(), line.capacity(), line.find("7é")),
        (400, 400, Some(397))
    );
    line.clear();
    write!(line, "é{:>399}", 7).expect(rt, "memory");
    assert_equal!(
        rt,
        (line.len(), line.capacity(), line.find('7')),
        (401, 401, Some(400))
    );
    line.clear();
    assert_equal!(rt, line.write(Half), Err(ReserveError));
    assert_that!(rt, is_heap(&line, 401, ""));
}

#[test]
fn a_write_that_fails_by_itself_changes_nothing(rt: HostRuntime) {
    let rt = &rt;
    let alloc = rt.alloc();
    let mut line = short(alloc, "ä");
    assert_equal!(rt, write!(line, "b{}", Half), Err(ReserveError));
    assert_equal!(rt, line.writeln(Half), Err(ReserveError));
    assert_that!(rt, is_inline(&line, "ä"));
    let mut text = lasting(alloc, 30);
    assert_equal!(rt, text.write(Half), Err(ReserveError));
    assert_that!(rt, is_static(&text, ascii_text(30)));
}
