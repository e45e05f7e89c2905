//! Tests of the callers in `plain.rt`.

use compact_asserts::{assert_equal, that};
use compact_callers::plain::type_two;
use compact_testing::values::short;

#[test]
fn the_cursor_is_behind_what_was_typed(rt: HostRuntime) {
    let rt = &rt;
    let mut line = short(rt.alloc(), "aä");
    that(line.is_char_boundary(1)).expect(rt, "it holds");
    assert_equal!(rt, type_two(&mut line, 1, 'ß', 'x').expect(rt, "memory"), 4);
}
