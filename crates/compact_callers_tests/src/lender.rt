//! Tests of the callers in `lender.rt`.

use compact_asserts::assert_that;
use compact_callers::lender::start_anew;
use compact_testing::values::short;

#[test]
fn a_value_starts_anew(rt: HostRuntime) {
    let rt = &rt;
    let mut value = short(rt.alloc(), "ab");
    assert_that!(rt, matches!(start_anew(&mut value, "é"), Ok(true)));
}
