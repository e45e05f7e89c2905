//! Tests of the callers in `range.rt`.

use compact_asserts::assert_equal;
use compact_callers::range::{bytes_between, part_between};
use compact_testing::values::short;

#[test]
fn a_part_is_between_boundaries(rt: HostRuntime) {
    let rt = &rt;
    let line = short(rt.alloc(), "aäb");
    assert_equal!(rt, part_between(&line, 1, 3), Some("ä"));
    assert_equal!(rt, part_between(&line, 1, 2), None);
    assert_equal!(rt, bytes_between(&line, 1, 4), Some("äb"));
    assert_equal!(rt, bytes_between(&line, 3, 1), None);
}
