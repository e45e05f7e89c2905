//! Tests of the callers in `iterator.rt`.

use compact_asserts::assert_that;
use compact_callers::iterator::long_names;
use compact_testing::checks::is_fitted;
use compact_testing::values::{short, value_of};

#[test]
fn long_names_are_gathered(rt: HostRuntime) {
    let rt = &rt;
    let alloc = rt.alloc();
    let last = value_of(alloc, " and the last of all the names").expect(rt, "memory");
    let long = long_names(alloc, &[short(alloc, "first"), last], 5).expect(rt, "memory");
    assert_that!(rt, is_fitted(&long, " and the last of all the names"));
}
