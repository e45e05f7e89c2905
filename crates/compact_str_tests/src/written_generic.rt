//! `fmt::Write`, when imported, serves generic code; a value's own methods take precedence.

use compact_asserts::assert_that;
use compact_str::{CompactString, ReserveError};
use compact_testing::checks::is_inline;
use compact_testing::values::short;
use std::fmt;
use std::fmt::Write;

/// Writes by the trait's `write_str`.
fn write_mark<W: Write>(out: &mut W) -> fmt::Result {
    write!(out, "{}!", 12)
}

/// Writes by the type's own method, whose error is `ReserveError`.
fn write_own_mark(line: &mut CompactString) -> Result<(), ReserveError> {
    write!(line, "{}?", 12)
}

#[test]
fn a_value_is_written_to_with_the_import(rt: HostRuntime) {
    let mut line = short(rt.alloc(), "ä");
    write_mark(&mut line).expect(&rt, "memory");
    write_own_mark(&mut line).expect(&rt, "memory");
    assert_that!(&rt, is_inline(&line, "ä12!12?"));
}
