//! Positions and ranges in a value. Edits at positions are in the table of `compact_table_tests`.

use compact_asserts::{assert_equal, that, that_for};
use compact_testing::values::short;
use std::ops::Bound::{Excluded, Included, Unbounded};

#[test]
fn boundaries_are_where_characters_begin_and_end(rt: HostRuntime) {
    let value = short(rt.alloc(), "äb𝄞");
    for (index, boundary) in [
        (0, true),
        (1, false),
        (2, true),
        (3, true),
        (4, false),
        (5, false),
        (6, false),
        (7, true),
        (8, false),
    ] {
        that_for(index, value.is_char_boundary(index) == boundary).expect(&rt, "it holds");
    }
}

#[test]
fn bounds_make_a_range_or_none(rt: HostRuntime) {
    let value = short(rt.alloc(), "äb");
    for (start, end, range) in [
        (Excluded(1), Excluded(3), Some((2, 3))),
        (Unbounded, Included(2), Some((0, 3))),
        (Included(3), Unbounded, Some((3, 3))),
        (Unbounded, Unbounded, Some((0, 3))),
        (Included(1), Unbounded, None),
        (Included(3), Excluded(2), None),
        (Unbounded, Excluded(4), None),
        (Unbounded, Included(usize::MAX), None),
        (Excluded(usize::MAX), Unbounded, None),
    ] {
        assert_equal!(&rt, value.check_range(start, end), range);
    }
}

#[test]
fn a_range_is_a_part(rt: HostRuntime) {
    let rt = &rt;
    let value = short(rt.alloc(), "aäb");
    that(value.check_range(Included(1), Excluded(3)).is_some()).expect(rt, "it holds");
    assert_equal!(rt, value.range_within(1..3), "ä");
    that(value.check_range(Included(1), Included(2)).is_some()).expect(rt, "it holds");
    assert_equal!(rt, value.range_within(1..=2), "ä");
    that(value.check_range(Unbounded, Excluded(1)).is_some()).expect(rt, "it holds");
    assert_equal!(rt, value.range_within(..1), "a");
    that(value.check_range(Included(3), Unbounded).is_some()).expect(rt, "it holds");
    assert_equal!(rt, value.range_within(3..), "b");
    that(value.check_range(Unbounded, Unbounded).is_some()).expect(rt, "it holds");
    assert_equal!(rt, value.range_within(..), "aäb");
}
