//! Tests of the callers in `error.rt`.

use compact_asserts::{assert_equal, assert_that};
use compact_callers::error::{
    add_checked, add_named, add_read, marked_bytes, marked_output, write_marked,
};
use compact_testing::checks::{are_texts, is_inline};
use compact_testing::values::short;

#[test]
fn names_are_added_under_each_error(rt: HostRuntime) {
    let rt = &rt;
    let alloc = rt.alloc();
    let mut names = Vec::new(alloc);
    add_named(alloc, &mut names, "").expect(rt, "memory");
    add_read(alloc, &mut names, "abcdefghijklmnopqrstuvwxyz").expect(rt, "memory");
    add_checked(alloc, &mut names, "b").expect(rt, "memory");
    let texts = ["", "abcdefghijklmnopqrstuvwxyz", "b"];
    assert_that!(rt, are_texts(names.as_slice(), &texts));
}

#[test]
fn a_line_is_marked_under_each_error(rt: HostRuntime) {
    let rt = &rt;
    let alloc = rt.alloc();
    let bytes = marked_bytes(short(alloc, "é")).expect(rt, "memory");
    let marked: &[u8] = b"\xC3\xA9!";
    assert_equal!(rt, bytes.as_slice(), marked);
    let bytes = marked_output(short(alloc, "")).expect(rt, "memory");
    let mark: &[u8] = b"!";
    assert_equal!(rt, bytes.as_slice(), mark);
    let mut out = short(alloc, "a");
    write_marked(short(alloc, "b"), &mut out).expect(rt, "memory");
    assert_that!(rt, is_inline(&out, "ab!"));
}
