//! The report: columns counted in characters, and records that are too short.

use compact_asserts::assert_equal;
use compact_str::CompactString;
use compact_testing::values::value_of;
use compact_uses::aligned_rows;
use std::alloc::Global;
use std::process::Abort;

/// Creates a record with these fields.
fn fields_of(rt: &impl Abort, alloc: Global, texts: &[&str]) -> Vec<CompactString> {
    let mut fields = Vec::new(alloc);
    for text in texts {
        fields
            .push(value_of(alloc, text).expect(rt, "memory"))
            .expect(rt, "memory");
    }
    fields
}

fn assert_line(rt: &impl Abort, lines: &Vec<CompactString>, index: usize, text: &str) {
    assert_equal!(rt, lines.get(index).map(|line| line.as_str()), Some(text));
}

// The widths are 2, 5 and 1 characters; the fields have more bytes.
#[test]
fn columns_are_as_wide_as_their_longest_field_in_characters(rt: HostRuntime) {
    let rt = &rt;
    let alloc = rt.alloc();
    let table = [
        fields_of(rt, alloc, &["a", "größe", "1"]),
        fields_of(rt, alloc, &["😀字", "b"]),
        fields_of(rt, alloc, &[]),
    ];
    let lines = aligned_rows(alloc, &table).expect(rt, "memory");
    assert_equal!(rt, lines.len(), 3);
    assert_line(rt, &lines, 0, "| a  | größe | 1 |");
    assert_line(rt, &lines, 1, "| 😀字 | b     |   |");
    assert_line(rt, &lines, 2, "|    |       |   |");
}

#[test]
fn no_records_have_no_lines(rt: HostRuntime) {
    let lines = aligned_rows(rt.alloc(), &[]).expect(&rt, "memory");
    assert_equal!(&rt, lines.len(), 0);
}
