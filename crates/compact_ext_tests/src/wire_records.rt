//! Records of a reader, to its end. The bytes were written by hand from the definition of the form.

use crate::wire_forms::end_of;
use compact_asserts::{assert_equal, assert_that};
use compact_ext::wire::{Records, WireError};
use compact_str::CompactString;
use compact_testing::checks::{is_at, is_inline};
use compact_testing::stopping_io::{Pieces, Stop};
use compact_testing::values::ascii_text;
use std::alloc::Global;
use std::io::{BufRead, BufReader, ErrorKind};
use std::process::Abort;

/// The forms of `a`, of the empty text and of `Hi`.
const RECORDS: [u8; 15] = [1, 0, 0, 0, 0x61, 0, 0, 0, 0, 2, 0, 0, 0, 0x48, 0x69];

/// Reads all records.
fn read_records<R: BufRead + Drop>(
    alloc: Global,
    reader: R,
) -> Result<Vec<CompactString>, WireError> {
    Records::new(alloc, reader).into_vec()
}

/// Asserts that the next record is this text, inline.
fn assert_next<R: BufRead + Drop>(rt: &impl Abort, records: &mut Records<R>, text: &str) {
    let item = records.next().expect(rt, "no end");
    assert_that!(rt, is_inline(&item.expect(rt, "a text"), text));
}

/// Asserts that the next records are these texts, inline.
fn assert_texts<R: BufRead + Drop>(rt: &impl Abort, records: &mut Records<R>, texts: &[&str]) {
    for text in texts {
        assert_next(rt, records, text);
    }
}

/// Asserts that the next record is a fault of this name.
fn assert_next_fault<R: BufRead + Drop>(rt: &impl Abort, records: &mut Records<R>, fault: &str) {
    let item = records.next().expect(rt, "no end");
    assert_equal!(rt, end_of(&item), fault);
}

/// Asserts that there are no more records, however often `next` is called.
fn assert_end<R: BufRead + Drop>(rt: &impl Abort, records: &mut Records<R>) {
    assert_that!(rt, records.next().is_none());
    assert_that!(rt, records.next().is_none());
}

/// Asserts that collecting records fails, with this fault.
fn assert_not_collected<R: BufRead + Drop>(rt: &impl Abort, alloc: Global, reader: R, fault: &str) {
    assert_equal!(rt, end_of(&read_records(alloc, reader)), fault);
}

#[test]
fn records_are_read_in_order(rt: HostRuntime) {
    let mut records = Records::new(rt.alloc(), RECORDS.as_slice());
    assert_texts(&rt, &mut records, &["a", "", "Hi"]);
    assert_end(&rt, &mut records);
}

/// Asserts that the record at an index is this text, inline.
fn is_record(rt: &impl Abort, records: &[CompactString], place: usize, text: &str) {
    assert_that!(
        rt,
        is_inline(records.get(place).expect(rt, "a record"), text),
    );
}

/// Asserts that these are the three records, each inline.
fn assert_records(rt: &impl Abort, records: &[CompactString]) {
    assert_equal!(rt, records.len(), 3);
    is_record(rt, records, 0, "a");
    is_record(rt, records, 1, "");
    is_record(rt, records, 2, "Hi");
}

/// Asserts the records of a reader of `step` bytes a call.
fn assert_in_pieces(rt: &impl Abort, alloc: Global, step: usize) {
    let pieces = Pieces::new(&RECORDS, step, Stop::Never);
    let reader = BufReader::with_capacity(alloc, 3, pieces).expect(rt, "a buffer");
    let records = read_records(alloc, reader).expect(rt, "records");
    assert_records(rt, records.as_slice());
}

#[test]
fn records_come_in_pieces(rt: HostRuntime) {
    for step in 1..16 {
        assert_in_pieces(&rt, rt.alloc(), step);
    }
}

#[test]
fn no_bytes_are_no_records(rt: HostRuntime) {
    let alloc = rt.alloc();
    let none: &[u8] = &[];
    let records = read_records(alloc, none).expect(&rt, "records");
    assert_equal!(&rt, records.len(), 0);
    let first = Records::new(alloc, none).next();
    assert_that!(&rt, first.is_none());
}

/// Asserts the records of the first bytes, which end within the third.
fn assert_cut(rt: &impl Abort, alloc: Global, len: usize) {
    let bytes = RECORDS.get(..len).unwrap_or(&[]);
    let mut records = Records::new(alloc, bytes);
    assert_next(rt, &mut records, "a");
    assert_next(rt, &mut records, "");
    assert_next_fault(rt, &mut records, "end");
    assert_end(rt, &mut records);
    assert_not_collected(rt, alloc, bytes, "end");
}

#[test]
fn an_end_within_a_record_is_a_fault(rt: HostRuntime) {
    for len in 10..15 {
        assert_cut(&rt, rt.alloc(), len);
    }
}

/// Asserts that the first record is not valid UTF-8, and that `a` comes after it.
fn assert_broken_and_a(rt: &impl Abort, alloc: Global, bytes: &[u8]) {
    let mut records = Records::new(alloc, bytes);
    assert_next_fault(rt, &mut records, "utf8");
    assert_next(rt, &mut records, "a");
    assert_end(rt, &mut records);
}

#[test]
fn after_an_invalid_text_the_next_is_read(rt: HostRuntime) {
    let bytes = b"\x01\0\0\0\xFF\x01\0\0\0a";
    assert_broken_and_a(&rt, rt.alloc(), bytes);
    assert_not_collected(&rt, rt.alloc(), bytes.as_slice(), "utf8");
}

/// A reader of the three records that returns five bytes at its first call, and fails from its second on.
fn failing(rt: &impl Abort, alloc: Global, kind: ErrorKind) -> BufReader<Pieces<'static>> {
    let pieces = Pieces::new(&RECORDS, 5, Stop::Breaks(2, kind));
    BufReader::with_capacity(alloc, 8, pieces).expect(rt, "a buffer")
}

/// Asserts that a failure after the first record is reported, and not retried.
fn assert_failure(rt: &impl Abort, alloc: Global, kind: ErrorKind) {
    let mut records = Records::new(alloc, failing(rt, alloc, kind));
    assert_next(rt, &mut records, "a");
    assert_next_fault(rt, &mut records, "io");
    assert_next_fault(rt, &mut records, "io");
    assert_not_collected(rt, alloc, failing(rt, alloc, kind), "io");
}

/// Builds the form of `text`, of at most 255 bytes, followed by that of `a`.
fn with_another(rt: &impl Abort, alloc: Global, text: &[u8]) -> Vec<u8> {
    let mut bytes = Vec::new(alloc);
    let len = u8::try_from(text.len()).expect(rt, "a short text");
    let parts: [&[u8]; 4] = [&[len], &[0, 0, 0], text, &[1, 0, 0, 0, 0x61]];
    for part in parts {
        bytes.extend_from_slice(part).expect(rt, "memory");
    }
    bytes
}

/// Asserts this text, on the heap with just the capacity that it needs, and then `a`.
fn assert_long_and_another<R: BufRead + Drop>(
    rt: &impl Abort,
    alloc: Global,
    reader: R,
    text: &str,
) {
    let mut records = Records::new(alloc, reader);
    let item = records.next().expect(rt, "no end");
    assert_that!(
        rt,
        is_at(&item.expect(rt, "a text"), "heap", text.len(), text),
    );
    assert_next(rt, &mut records, "a");
    assert_end(rt, &mut records);
}

// A slice shows the whole form, a buffer of eight bytes a part of it.
#[test]
fn long_records_have_just_their_room(rt: HostRuntime) {
    let rt = &rt;
    let alloc = rt.alloc();
    for len in [25, 31, 32, 33, 63, 64, 80] {
        let bytes = with_another(rt, alloc, ascii_text(len).as_bytes());
        assert_long_and_another(rt, alloc, bytes.as_slice(), ascii_text(len));
        let reader = BufReader::with_capacity(alloc, 8, bytes.as_slice()).expect(rt, "a buffer");
        assert_long_and_another(rt, alloc, reader, ascii_text(len));
    }
}

/// Asserts that ASCII characters with one invalid byte among them are a fault, and that `a` comes after it.
fn assert_broken_and_another(rt: &impl Abort, alloc: Global, len: usize, at: usize) {
    let mut text = [0x61; 80];
    if let Some(byte) = text.get_mut(at) {
        *byte = 0xFF;
    }
    let bytes = with_another(rt, alloc, text.get(..len).unwrap_or(&[]));
    assert_broken_and_a(rt, alloc, &bytes);
}

#[test]
fn after_invalid_bytes_the_next_is_read(rt: HostRuntime) {
    for len in [1usize, 3, 4, 7, 8, 15, 16, 23, 24, 25, 31, 32, 63, 64, 80] {
        for at in [0, len / 2, len.saturating_sub(1)] {
            assert_broken_and_another(&rt, rt.alloc(), len, at);
        }
    }
}

#[test]
fn a_failed_read_between_records_is_reported(rt: HostRuntime) {
    for kind in [ErrorKind::Other, ErrorKind::Interrupted] {
        assert_failure(&rt, rt.alloc(), kind);
    }
}

#[test]
fn after_a_failed_read_the_records_continue(rt: HostRuntime) {
    let rt = &rt;
    let alloc = rt.alloc();
    let pieces = Pieces::new(&RECORDS, 5, Stop::Fails(2, ErrorKind::Other));
    let reader = BufReader::with_capacity(alloc, 8, pieces).expect(rt, "a buffer");
    let mut records = Records::new(alloc, reader);
    assert_next(rt, &mut records, "a");
    assert_next_fault(rt, &mut records, "io");
    assert_texts(rt, &mut records, &["", "Hi"]);
    assert_end(rt, &mut records);
}

#[test]
fn a_thousand_records_are_collected(rt: HostRuntime) {
    let rt = &rt;
    let alloc = rt.alloc();
    let mut bytes = Vec::new(alloc);
    for _ in 0..1000 {
        bytes.extend_from_slice(b"\x01\0\0\0a").expect(rt, "memory");
    }
    let records = read_records(alloc, bytes.as_slice()).expect(rt, "records");
    assert_equal!(rt, records.len(), 1000);
}
