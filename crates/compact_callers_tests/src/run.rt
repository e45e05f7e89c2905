//! Tests of the callers in `run.rt`.

use compact_asserts::assert_that;
use compact_callers::run::{bracket, rewrite};
use compact_testing::checks::is_inline;
use compact_testing::values::short;

#[test]
fn a_text_is_enclosed_in_brackets(rt: HostRuntime) {
    let alloc = rt.alloc();
    let mut value = short(alloc, "ab");
    assert_that!(&rt, bracket(alloc, &mut value).expect(&rt, "memory"));
    assert_that!(&rt, is_inline(&value, "[ab]"));
}

#[test]
fn a_text_is_rewritten(rt: HostRuntime) {
    let alloc = rt.alloc();
    let mut value = short(alloc, "ab");
    let mut replies = Vec::new(alloc);
    rewrite(&mut value, "é", &mut replies).expect(&rt, "memory");
    assert_that!(&rt, is_inline(&value, "é"));
}
