//! Tests of the callers in `sorted.rt`.

use compact_asserts::assert_that;
use compact_callers::sorted::distinct_names;
use compact_testing::checks::are_texts;
use compact_testing::values::short;

#[test]
fn names_are_sorted_and_distinct(rt: HostRuntime) {
    let rt = &rt;
    let alloc = rt.alloc();
    let names = vec![in alloc;
        short(alloc, "né"),
        short(alloc, "b"),
        short(alloc, "né"),
        short(alloc, ""),
    ]
    .expect(rt, "memory");
    let names = distinct_names(names).expect(rt, "memory");
    assert_that!(rt, are_texts(names.as_slice(), &["", "b", "né"]));
}
