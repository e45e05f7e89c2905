//! Wire forms in pieces: a reader that ends at each of its bytes, and a writer that stops at each.

use crate::wire_forms::{assert_writes, end_of, form_of_ascii};
use compact_asserts::{assert_equal, assert_that};
use compact_ext::wire::{Records, WireError, read_wire, write_wire};
use compact_str::CompactString;
use compact_testing::stopping_io::{Narrow, Pieces, Stop};
use compact_testing::values::{ascii_text, value_of};
use std::alloc::Global;
use std::io::{BufReader, ErrorKind};
use std::process::Abort;

/// Asserts that each prefix of a form ends too early, and is read whole.
fn assert_beginnings(rt: &impl Abort, alloc: Global, form: &[u8], step: usize) {
    for count in 0..form.len() {
        let mut reader = Pieces::new(form.get(..count).unwrap_or(&[]), step, Stop::Never);
        assert_equal!(rt, end_of(&read_wire(alloc, &mut reader)), "end");
        assert_equal!(rt, reader.rest.len(), 0);
    }
}

#[test]
fn each_beginning_of_a_form_ends_too_early(rt: HostRuntime) {
    let rt = &rt;
    let alloc = rt.alloc();
    let short = form_of_ascii(rt, alloc, 24);
    assert_equal!(rt, short.len(), 28);
    assert_beginnings(rt, alloc, &short, 1);
    assert_beginnings(rt, alloc, &short, 5);
    let long = form_of_ascii(rt, alloc, 30);
    assert_beginnings(rt, alloc, &long, 1);
    assert_beginnings(rt, alloc, &long, 5);
}

/// Asserts that invalid bytes are reported once they are read, and what follows is not.
fn assert_broken(rt: &impl Abort, alloc: Global, bytes: &[u8], left: usize) {
    let mut reader = Pieces::new(bytes, 1, Stop::Never);
    assert_equal!(rt, end_of(&read_wire(alloc, &mut reader)), "utf8");
    assert_equal!(rt, reader.rest.len(), left);
    assert_equal!(rt, reader.calls.saturating_add(left), bytes.len());
}

#[test]
fn invalid_bytes_are_read_one_by_one(rt: HostRuntime) {
    let rt = &rt;
    let alloc = rt.alloc();
    assert_broken(rt, alloc, b"\x02\0\0\0\xC0\x80", 0);
    assert_broken(rt, alloc, b"\x03\0\0\0\xED\xA0\x80\x41\x42", 2);
    assert_broken(rt, alloc, b"\x02\0\0\0\xE2\x82\xAC", 1);
    assert_broken(
        rt,
        alloc,
        b"\x1A\0\0\0aaaaaaaaaaaaaaaaaaaaaaaa\xE2\x82\xAC",
        1,
    );
}

/// Asserts the outcome and output of a writer of one byte a call.
fn assert_sent(rt: &impl Abort, text: &CompactString, stop: Stop, end: &str, out: &[u8]) {
    assert_writes(rt, text, Narrow::new(256, 1, stop), end, out);
}

#[test]
fn a_long_text_stops_at_each_byte(rt: HostRuntime) {
    let rt = &rt;
    let alloc = rt.alloc();
    let text = value_of(alloc, ascii_text(30)).expect(rt, "memory");
    let form = form_of_ascii(rt, alloc, 30);
    assert_sent(rt, &text, Stop::Never, "done", &form);
    for call in 1..form.len() + 1 {
        let out = form.get(..call - 1).unwrap_or(&[]);
        assert_sent(rt, &text, Stop::Fails(call, ErrorKind::Other), "io", out);
        assert_sent(
            rt,
            &text,
            Stop::Fails(call, ErrorKind::Interrupted),
            "io",
            out,
        );
        assert_sent(rt, &text, Stop::Pauses(call), "zero", out);
    }
}

/// Asserts the outcome of a claim of the greatest length, when the reader stops after `count` bytes of the text.
fn assert_claim_ends(rt: &impl Abort, alloc: Global, count: usize, stop: Stop, end: &str) {
    let mut reader = Pieces::new(b"\xFF\xFF\xFF\xFFabc", 1, stop);
    assert_equal!(rt, end_of(&read_wire(alloc, &mut reader)), end);
    assert_equal!(rt, reader.rest.len().saturating_add(count), 3);
}

/// Asserts that the outcome of such a claim is that of its reader.
fn assert_claimed(rt: &impl Abort, alloc: Global, count: usize) {
    let call = count.saturating_add(5);
    let failing = Stop::Fails(call, ErrorKind::Other);
    assert_claim_ends(rt, alloc, count, failing, "io");
    assert_claim_ends(rt, alloc, count, Stop::Pauses(call), "end");
}

#[test]
fn the_greatest_length_needs_its_bytes(rt: HostRuntime) {
    for count in 0..4 {
        assert_claimed(&rt, rt.alloc(), count);
    }
}

/// Returns the kind of the error of the reader or writer.
fn kind_of<T>(ended: &Result<T, WireError>) -> Option<ErrorKind> {
    match ended {
        Err(WireError::Io(error)) => Some(error.kind()),
        _ => None,
    }
}

/// Asserts that `read_wire`, `write_wire` and `Records` return the error of a call that fails with this kind.
fn assert_kind(rt: &impl Abort, alloc: Global, kind: ErrorKind) {
    let form = form_of_ascii(rt, alloc, 30);
    let mut reader = Pieces::new(&form, 30, Stop::Fails(2, kind));
    assert_that!(rt, kind_of(&read_wire(alloc, &mut reader)) == Some(kind));
    let text = value_of(alloc, ascii_text(30)).expect(rt, "memory");
    let mut writer = Narrow::new(256, 256, Stop::Fails(2, kind));
    assert_that!(rt, kind_of(&write_wire(&text, &mut writer)) == Some(kind));
    let pieces = Pieces::new(&form, 30, Stop::Fails(1, kind));
    let reader = BufReader::with_capacity(alloc, 8, pieces).expect(rt, "a buffer");
    let item = Records::new(alloc, reader).next().expect(rt, "no end");
    assert_that!(rt, kind_of(&item) == Some(kind));
}

#[test]
fn the_error_of_a_reader_or_writer_is_returned(rt: HostRuntime) {
    for kind in [
        ErrorKind::Interrupted,
        ErrorKind::TimedOut,
        ErrorKind::OutOfMemory,
    ] {
        assert_kind(&rt, rt.alloc(), kind);
    }
}

#[test]
fn a_reader_that_has_all_bytes_is_called_twice(rt: HostRuntime) {
    let rt = &rt;
    let alloc = rt.alloc();
    for count in [24, 80] {
        let form = form_of_ascii(rt, alloc, count);
        let mut reader = Pieces::new(&form, 100, Stop::Never);
        assert_that!(rt, read_wire(alloc, &mut reader).is_ok());
        assert_equal!(rt, reader.calls, 2);
    }
}

#[test]
fn a_writer_that_takes_all_bytes_is_called_twice(rt: HostRuntime) {
    let rt = &rt;
    let alloc = rt.alloc();
    let text = value_of(alloc, ascii_text(80)).expect(rt, "memory");
    let writer = Narrow::new(256, 256, Stop::Breaks(3, ErrorKind::Other));
    let form = form_of_ascii(rt, alloc, 80);
    assert_writes(rt, &text, writer, "done", &form);
}
