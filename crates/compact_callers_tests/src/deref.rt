//! Tests of the callers in `deref.rt`.

use compact_asserts::assert_equal;
use compact_callers::deref::{filled_lines, longest_word, number_in, with_commas};
use compact_testing::values::short;

#[test]
fn a_line_is_read(rt: HostRuntime) {
    let rt = &rt;
    let alloc = rt.alloc();
    let line = short(alloc, " 42\n");
    assert_equal!(rt, number_in(&line), Some(42));
    assert_equal!(rt, filled_lines(&short(alloc, "a\n \nb")), 2);
    assert_equal!(rt, longest_word(&short(alloc, "a bcé d")), 4);
    assert_equal!(rt, number_in(&short(alloc, "x")), None);
}

#[test]
fn texts_are_joined_into_a_string(rt: HostRuntime) {
    let alloc = rt.alloc();
    let row = [short(alloc, "a"), short(alloc, "é")];
    let joined = with_commas(alloc, &row).expect(&rt, "memory");
    assert_equal!(&rt, joined.as_str(), "a,é");
}
