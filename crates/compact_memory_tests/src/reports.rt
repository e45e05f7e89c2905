//! The ranking and the report with no memory.

use compact_asserts::{assert_equal, assert_that};
use compact_str::CompactString;
use compact_testing::memory::take_all;
use compact_testing::values::short;
use compact_uses::{Kind, Token, aligned_rows, ranking};

#[test]
fn a_ranking_without_names_needs_no_memory(rt: HostRuntime) {
    let alloc = rt.alloc();
    let word = Token {
        kind: Kind::Word,
        name: 0,
    };
    let hog = take_all(alloc).expect(&rt, "room for the list of blocks");
    let of_none = ranking(alloc, &[], 0);
    let of_one = ranking(alloc, &[word], 1);
    drop(hog);
    assert_that!(&rt, of_none.is_ok());
    assert_that!(&rt, of_one.is_err());
}

#[test]
fn a_report_that_fails_leaves_the_records(rt: HostRuntime) {
    let rt = &rt;
    let alloc = rt.alloc();
    let mut fields = Vec::new(alloc);
    fields.push(short(alloc, "a")).expect(rt, "memory");
    fields.push(short(alloc, "b")).expect(rt, "memory");
    let table: [Vec<CompactString>; 1] = [fields];
    let hog = take_all(alloc).expect(rt, "room for the list of blocks");
    let lines = aligned_rows(alloc, &table);
    drop(hog);
    assert_that!(rt, lines.is_err());
    let lines = aligned_rows(alloc, &table).expect(rt, "memory");
    let line = lines.first().map(|line| line.as_str());
    assert_equal!(rt, line, Some("| a | b |"));
}
