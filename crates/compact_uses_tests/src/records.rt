//! Records of fields: quotes, line ends, records of different lengths, and what an error leaves in the list.

use compact_asserts::{assert_equal, assert_that};
use compact_str::CompactString;
use compact_testing::checks::are_texts;
use compact_testing::stopping_io::{Pieces, Stop};
use compact_uses::{aligned_rows, read_records};
use csv::{Error, ErrorKind};
use std::alloc::Global;
use std::io;
use std::process::Abort;

/// Two records, of lines of 7 and 5 bytes.
const INPUT: &[u8] = b"ab,\xE2\x82\xAC\n\"d\",\n";

/// Asserts the fields of a record.
fn assert_record(rt: &impl Abort, records: &[Vec<CompactString>], index: usize, texts: &[&str]) {
    let fields = records.get(index).expect(rt, "a record");
    assert_that!(rt, are_texts(fields.as_slice(), texts));
}

/// Reads bytes that are all records.
fn records_of(rt: &impl Abort, alloc: Global, bytes: &[u8]) -> Vec<Vec<CompactString>> {
    let mut records = Vec::new(alloc);
    assert_that!(rt, read_records(alloc, bytes, &mut records).is_ok());
    records
}

// As Python's csv reader, except for the blank line, which is a record of no fields there and none here.
#[test]
fn fields_may_be_in_quotes_and_records_differ_in_length(rt: HostRuntime) {
    let rt = &rt;
    let text = "ab,\"b,\"\"c\"\r\n\r\n,é,\"d\ne\"\nf\"g";
    let records = records_of(rt, rt.alloc(), text.as_bytes());
    assert_equal!(rt, records.len(), 3);
    assert_record(rt, &records, 0, &["ab", "b,\"c"]);
    assert_record(rt, &records, 1, &["", "é", "d\ne"]);
    assert_record(rt, &records, 2, &["f\"g"]);
}

#[test]
fn records_that_come_byte_by_byte_are_reported_in_columns(rt: HostRuntime) {
    let rt = &rt;
    let alloc = rt.alloc();
    let mut records = Vec::new(alloc);
    let reader = Pieces::new(INPUT, 1, Stop::Never);
    assert_that!(rt, read_records(alloc, reader, &mut records).is_ok());
    let rows = aligned_rows(alloc, &records).expect(rt, "memory");
    assert_that!(
        rt,
        are_texts(rows.as_slice(), &["| ab | € |", "| d  |   |"]),
    );
}

/// Returns `true` for the error of a reader that failed with the kind `Other`.
fn is_other(error: Error) -> bool {
    match error.into_kind() {
        ErrorKind::Io(cause) => cause.kind() == io::ErrorKind::Other,
        _ => false,
    }
}

/// Asserts that a reader that fails after `given` bytes leaves the records of the complete lines.
fn assert_failed(rt: &impl Abort, alloc: Global, given: usize, count: usize) {
    let mut records = Vec::new(alloc);
    let stop = Stop::Fails(given.saturating_add(1), io::ErrorKind::Other);
    let read = read_records(alloc, Pieces::new(INPUT, 1, stop), &mut records);
    assert_that!(rt, read.is_err_and(is_other));
    assert_equal!(rt, records.len(), count);
}

#[test]
fn a_reader_that_fails_leaves_the_records_before(rt: HostRuntime) {
    let rt = &rt;
    let alloc = rt.alloc();
    assert_failed(rt, alloc, 0, 0);
    assert_failed(rt, alloc, 6, 0);
    assert_failed(rt, alloc, 7, 1);
    assert_failed(rt, alloc, 11, 1);
    assert_failed(rt, alloc, 12, 2);
}

#[test]
fn a_field_that_is_not_valid_utf8_leaves_the_records_before(rt: HostRuntime) {
    let rt = &rt;
    let alloc = rt.alloc();
    let mut records = records_of(rt, alloc, b"a");
    let bytes = b"b\nc,\xff\nd\n".as_slice();
    let read = read_records(alloc, bytes, &mut records);
    assert_that!(
        rt,
        read.is_err_and(|error| matches!(error.into_kind(), ErrorKind::Utf8 { .. })),
    );
    assert_equal!(rt, records.len(), 2);
    assert_record(rt, &records, 0, &["a"]);
    assert_record(rt, &records, 1, &["b"]);
}
