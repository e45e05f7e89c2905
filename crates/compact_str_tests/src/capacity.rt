//! Growing and shrinking, so that a mistake shows without the table. The table of `compact_table_tests` covers each
//! edit.

use compact_asserts::assert_that;
use compact_testing::checks::is_heap;
use compact_testing::values::{append, ascii_text, short, with_room};

#[test]
fn an_append_grows_the_buffer_by_half(rt: HostRuntime) {
    let mut value = short(rt.alloc(), ascii_text(24));
    append(&mut value, "a").expect(&rt, "memory");
    assert_that!(&rt, is_heap(&value, 36, ascii_text(25)));
}

#[test]
fn the_capacity_shrinks(rt: HostRuntime) {
    let rt = &rt;
    let mut value = with_room(rt.alloc(), 100).expect(rt, "memory");
    append(&mut value, ascii_text(40)).expect(rt, "memory");
    value.shrink_to(50);
    assert_that!(rt, is_heap(&value, 50, ascii_text(40)));
    value.shrink_to_fit();
    assert_that!(rt, is_heap(&value, 40, ascii_text(40)));
}
