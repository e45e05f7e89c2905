//! Tests of the callers in `one_error.rt`.

use compact_asserts::{assert_equal, assert_that};
use compact_callers::one_error::add_name;
use compact_edit::Interner;
use compact_testing::checks::are_texts;

#[test]
fn a_name_is_interned_and_copied(rt: HostRuntime) {
    let rt = &rt;
    let alloc = rt.alloc();
    let mut names = Interner::new(alloc);
    let mut copies = Vec::new(alloc);
    let number = add_name(alloc, &mut names, &mut copies, "b").expect(rt, "memory");
    assert_equal!(rt, number, 0);
    assert_that!(rt, are_texts(copies.as_slice(), &["b"]));
}
