//! Tests of the callers in `made.rt`.

use compact_asserts::assert_that;
use compact_callers::made::append_note;
use compact_testing::checks::is_inline;
use std::collections::HashMap;

#[test]
fn a_note_begins_empty(rt: HostRuntime) {
    let rt = &rt;
    let mut notes = HashMap::new(rt.alloc());
    append_note(&mut notes, 7, "a").expect(rt, "memory");
    append_note(&mut notes, 7, "é").expect(rt, "memory");
    assert_that!(rt, is_inline(notes.get(&7).expect(rt, "a note"), "aé"));
}
