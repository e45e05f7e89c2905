//! Writing and reading the wire form: the bytes, and what each fault has read or written. The bytes were written by
//! hand from the definition of the form.

use crate::wire_forms::{assert_writes, end_of, form_of, form_of_ascii};
use compact_asserts::{assert_equal, assert_that};
use compact_ext::wire::{WireError, read_wire, write_wire};
use compact_str::{CompactString, ReserveError};
use compact_testing::checks::is_inline;
use compact_testing::stopping_io::{Narrow, Pieces, Stop};
use compact_testing::values::{ascii_text, short, value_of};
use std::alloc::Global;
use std::io;
use std::io::ErrorKind;
use std::process::Abort;

/// Asserts the bytes that a text is written as.
fn assert_written(rt: &impl Abort, alloc: Global, text: &str, bytes: &[u8]) {
    let mut written = Vec::new(alloc);
    let sent = write_wire(&value_of(alloc, text).expect(rt, "memory"), &mut written);
    assert_that!(rt, sent.is_ok());
    assert_equal!(rt, written.as_slice(), bytes);
}

#[test]
fn short_texts_are_written(rt: HostRuntime) {
    let alloc = rt.alloc();
    for (text, bytes) in [
        ("Hi", b"\x02\0\0\0\x48\x69".as_slice()),
        ("", b"\0\0\0\0".as_slice()),
        ("€", b"\x03\0\0\0\xE2\x82\xAC".as_slice()),
    ] {
        assert_written(&rt, alloc, text, bytes);
    }
}

#[test]
fn long_texts_are_written(rt: HostRuntime) {
    let alloc = rt.alloc();
    for len in [25u8, 55] {
        let form = form_of_ascii(&rt, alloc, len);
        assert_written(&rt, alloc, ascii_text(len as usize), &form);
    }
}

#[test]
fn a_text_of_100000_bytes_is_written(rt: HostRuntime) {
    let rt = &rt;
    let alloc = rt.alloc();
    let text = short(alloc, "a").repeat(100_000).expect(rt, "memory");
    let mut written = Vec::new(alloc);
    assert_that!(rt, write_wire(&text, &mut written).is_ok());
    assert_equal!(rt, written.len(), 100_004);
    assert_equal!(rt, written.get(..5), Some(b"\xA0\x86\x01\0a".as_slice()));
}

#[test]
fn what_follows_a_form_stays_unread(rt: HostRuntime) {
    let rt = &rt;
    let bytes: [u8; 7] = [2, 0, 0, 0, 0x48, 0x69, 0x4A];
    let mut rest: &[u8] = &bytes;
    let text = read_wire(rt.alloc(), &mut rest).expect(rt, "a text");
    assert_that!(rt, is_inline(&text, "Hi"));
    assert_equal!(rt, rest.len(), 1);
    assert_that!(rt, rest.first() == Some(&0x4A));
}

/// Asserts the fault of an input that is no form, and that all of it is read.
fn assert_no_form(rt: &impl Abort, alloc: Global, bytes: &[u8], fault: &str) {
    let mut rest = bytes;
    assert_equal!(rt, end_of(&read_wire(alloc, &mut rest)), fault);
    assert_equal!(rt, rest.len(), 0);
}

#[test]
fn an_input_that_is_no_form_has_a_fault(rt: HostRuntime) {
    let rt = &rt;
    let alloc = rt.alloc();
    for (bytes, fault) in [
        (b"".as_slice(), "end"),
        (b"\x02\0".as_slice(), "end"),
        (b"\x01\0\0\0\xFF".as_slice(), "utf8"),
        (b"\xFF\xFF\xFF\xFFabc".as_slice(), "end"),
        (b"\x18\0\0\0aaaaaaaaaaaaaaaaaaaaaaa".as_slice(), "end"),
        // Packed, these 24 bytes would be the text "a".
        (b"\x18\0\0\0aaaaaaaaaaaaaaaaaaaaaaa\xC1".as_slice(), "utf8"),
        (b"\x17\0\0\0aaaaaaaaaaaaaaaaaaaaaa\xC1".as_slice(), "utf8"),
    ] {
        assert_no_form(rt, alloc, bytes, fault);
    }
    let form = form_of_ascii(rt, alloc, 55);
    assert_equal!(rt, form.len(), 59);
    assert_no_form(rt, alloc, form.get(..58).unwrap_or(&[]), "end");
}

#[test]
fn a_text_is_read_in_pieces(rt: HostRuntime) {
    let rt = &rt;
    let alloc = rt.alloc();
    let form = form_of(rt, alloc, 0x3C, "€".as_bytes(), 20);
    for step in 1..65 {
        let mut reader = Pieces::new(&form, step, Stop::Never);
        let text = read_wire(alloc, &mut reader).expect(rt, "a text");
        assert_equal!(rt, text.as_bytes(), form.get(4..).unwrap_or(&[]));
        assert_that!(rt, text.is_heap_allocated());
        assert_equal!(rt, text.capacity(), 60);
        assert_equal!(rt, reader.rest.len(), 0);
    }
}

/// Asserts that a reader of one byte a call is not called again after it stops, and that the bytes before are read.
fn assert_stops(rt: &impl Abort, alloc: Global, form: &[u8], call: usize, stop: Stop, fault: &str) {
    let mut reader = Pieces::new(form, 1, stop);
    assert_equal!(rt, end_of(&read_wire(alloc, &mut reader)), fault);
    assert_equal!(rt, reader.calls, call);
    assert_equal!(rt, reader.rest.len().saturating_add(call), form.len() + 1);
}

/// Asserts that at each call of a form, for each way to stop.
fn assert_each_stop(rt: &impl Abort, alloc: Global, form: &[u8]) {
    for call in 1..form.len() + 1 {
        assert_stops(
            rt,
            alloc,
            form,
            call,
            Stop::Breaks(call, ErrorKind::Other),
            "io",
        );
        let interrupted = Stop::Breaks(call, ErrorKind::Interrupted);
        assert_stops(rt, alloc, form, call, interrupted, "io");
        assert_stops(rt, alloc, form, call, Stop::Pauses(call), "end");
    }
    let late = Stop::Breaks(form.len() + 1, ErrorKind::Other);
    let mut reader = Pieces::new(form, 1, late);
    assert_equal!(rt, end_of(&read_wire(alloc, &mut reader)), "done");
    assert_equal!(rt, reader.calls, form.len());
}

#[test]
fn no_read_is_tried_again(rt: HostRuntime) {
    let alloc = rt.alloc();
    assert_each_stop(&rt, alloc, &[2, 0, 0, 0, 0x48, 0x69]);
    let form = form_of_ascii(&rt, alloc, 55);
    assert_each_stop(&rt, alloc, &form);
}

#[test]
fn a_writer_that_is_full_has_a_beginning(rt: HostRuntime) {
    let text = short(rt.alloc(), "Hi");
    let form: [u8; 6] = [2, 0, 0, 0, 0x48, 0x69];
    for room in 0..6 {
        let out = form.get(..room).unwrap_or(&[]);
        let full = Narrow::new(room, 5, Stop::Never);
        assert_writes(&rt, &text, full, "zero", out);
    }
    let whole = Narrow::new(6, 1, Stop::Breaks(7, ErrorKind::Other));
    assert_writes(&rt, &text, whole, "done", &form);
    let empty = short(rt.alloc(), "");
    let four = Narrow::new(4, 5, Stop::Never);
    assert_writes(&rt, &empty, four, "done", &[0; 4]);
}

#[test]
fn a_writer_that_fails_has_a_beginning(rt: HostRuntime) {
    let text = short(rt.alloc(), "Hi");
    let form: [u8; 6] = [2, 0, 0, 0, 0x48, 0x69];
    for call in 1..7usize {
        let out = form.get(..call - 1).unwrap_or(&[]);
        for kind in [ErrorKind::Other, ErrorKind::Interrupted] {
            let failing = Narrow::new(6, 1, Stop::Fails(call, kind));
            assert_writes(&rt, &text, failing, "io", out);
        }
    }
}

/// Asserts the `Display` of a fault.
fn assert_shown(rt: &impl Abort, alloc: Global, fault: WireError, text: &str) {
    let mut shown = CompactString::default(alloc);
    write!(shown, "{fault}").expect(rt, "memory");
    assert_equal!(rt, shown.as_str(), text);
}

#[test]
fn faults_are_shown(rt: HostRuntime) {
    let rt = &rt;
    let alloc = rt.alloc();
    assert_shown(
        rt,
        alloc,
        WireError::TooLong,
        "text too long for the wire form",
    );
    assert_shown(
        rt,
        alloc,
        WireError::UnexpectedEnd,
        "unexpected end of input",
    );
    assert_shown(rt, alloc, WireError::Utf8, "invalid utf-8");
    let failed = WireError::from(io::Error::other("x"));
    assert_shown(rt, alloc, failed, "input or output failed");
    assert_shown(rt, alloc, WireError::WriteZero, "writer took no bytes");
    let refused = WireError::from(ReserveError);
    assert_that!(rt, matches!(refused, WireError::Reserve(_)));
    assert_shown(
        rt,
        alloc,
        refused,
        "Cannot allocate memory to hold CompactString",
    );
}
