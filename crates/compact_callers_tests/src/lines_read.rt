//! Tests of the callers in `lines_read.rt`.

use compact_asserts::{assert_equal, assert_that};
use compact_callers::lines_read::{first_line, longest_line, next_pair};
use compact_str::CompactString;
use compact_testing::checks::is_inline;

#[test]
fn the_longest_line_is_measured(rt: HostRuntime) {
    let rt = &rt;
    let alloc = rt.alloc();
    let mut reader: &[u8] = b"a\n\xC3\xA9\xC3\xA9\n\nabc";
    assert_equal!(rt, longest_line(alloc, &mut reader).expect(rt, "lines"), 5);
    assert_that!(rt, reader.is_empty());
    assert_equal!(
        rt,
        longest_line(alloc, &mut reader).expect(rt, "no lines"),
        0,
    );
    let mut reader: &[u8] = b"a\n\xFF\nb\n";
    assert_that!(rt, longest_line(alloc, &mut reader).is_err());
    assert_equal!(rt, longest_line(alloc, &mut reader).expect(rt, "a line"), 2);
}

#[test]
fn the_first_line_is_read(rt: HostRuntime) {
    let rt = &rt;
    let alloc = rt.alloc();
    let mut reader: &[u8] = b"caf\xC3\xA9\nab";
    let line = first_line(alloc, &mut reader).expect(rt, "a line");
    assert_that!(rt, is_inline(&line, "café"));
    let line = first_line(alloc, &mut reader).expect(rt, "a line");
    assert_that!(rt, is_inline(&line, "ab"));
    let mut reader: &[u8] = b"\xC3\n";
    assert_that!(rt, first_line(alloc, &mut reader).is_err());
}

#[test]
fn a_pair_is_read_until_the_end(rt: HostRuntime) {
    let rt = &rt;
    let mut reader: &[u8] = b"a\nb\nc\n";
    let mut key = CompactString::default(rt.alloc());
    let mut value = CompactString::default(rt.alloc());
    assert_that!(
        rt,
        next_pair(&mut reader, &mut key, &mut value).expect(rt, "a pair")
    );
    assert_that!(
        rt,
        next_pair(&mut reader, &mut key, &mut value).expect(rt, "a key")
    );
    assert_that!(rt, is_inline(&key, "c\n"));
    assert_that!(
        rt,
        !next_pair(&mut reader, &mut key, &mut value).expect(rt, "the end")
    );
}
