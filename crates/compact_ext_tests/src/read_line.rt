//! Lines read into a string that is used again.

use compact_asserts::{assert_equal, assert_that};
use compact_ext::{ReadLineError, read_line};
use compact_str::CompactString;
use compact_testing::checks::{is_at, is_inline};
use compact_testing::stopping_io::{Pieces, Stop};
use compact_testing::values::{ascii_text, lasting, short};
use std::alloc::Global;
use std::io;
use std::io::{BufRead, BufReader, ErrorKind};
use std::process::Abort;

/// Returns how a call ended.
fn end_of(outcome: &Result<usize, ReadLineError>) -> &'static str {
    match outcome {
        Ok(_) => "done",
        Err(ReadLineError::Utf8) => "utf8",
        Err(ReadLineError::Io(_)) => "io",
        Err(ReadLineError::Reserve(_)) => "reserve",
    }
}

/// Asserts that a call appends `count` bytes, which makes the line `text`.
fn assert_reads<R: BufRead>(
    rt: &impl Abort,
    reader: &mut R,
    line: &mut CompactString,
    count: usize,
    text: &str,
) {
    assert_equal!(rt, read_line(reader, line).expect(rt, "a line"), count);
    assert_equal!(rt, line.as_str(), text);
}

/// Asserts that a call ends with this error, and leaves the line unchanged.
fn assert_fails<R: BufRead>(
    rt: &impl Abort,
    reader: &mut R,
    line: &mut CompactString,
    end: &str,
    text: &str,
) {
    assert_equal!(rt, end_of(&read_line(reader, line)), end);
    assert_that!(rt, is_inline(line, text));
}

/// Returns a reader that shows one byte at a time.
fn byte_by_byte<'a>(
    rt: &impl Abort,
    alloc: Global,
    bytes: &'a [u8],
    stop: Stop,
) -> BufReader<Pieces<'a>> {
    BufReader::new(alloc, Pieces::new(bytes, 1, stop)).expect(rt, "memory")
}

#[test]
fn lines_are_appended_with_their_newline(rt: HostRuntime) {
    let rt = &rt;
    let alloc = rt.alloc();
    let mut reader = b"caf\xC3\xA9\r\n\nab".as_slice();
    let mut line = short(alloc, "> ");
    assert_reads(rt, &mut reader, &mut line, 7, "> café\r\n");
    assert_reads(rt, &mut reader, &mut line, 1, "> café\r\n\n");
    assert_reads(rt, &mut reader, &mut line, 2, "> café\r\n\nab");
    assert_reads(rt, &mut reader, &mut line, 0, "> café\r\n\nab");
    assert_that!(rt, is_inline(&line, "> café\r\n\nab"));
}

#[test]
fn an_empty_input_has_no_line(rt: HostRuntime) {
    let rt = &rt;
    let mut line = lasting(rt.alloc(), 30);
    let mut reader = b"".as_slice();
    assert_reads(rt, &mut reader, &mut line, 0, ascii_text(30));
    assert_that!(rt, line.as_static_str().is_some());
}

#[test]
fn a_line_comes_byte_by_byte(rt: HostRuntime) {
    let rt = &rt;
    let alloc = rt.alloc();
    let mut reader = byte_by_byte(rt, alloc, b"\xE2\x82\xAC\r\nab", Stop::Never);
    let mut line = short(alloc, "");
    assert_reads(rt, &mut reader, &mut line, 5, "€\r\n");
    line.clear();
    assert_reads(rt, &mut reader, &mut line, 2, "ab");
    assert_reads(rt, &mut reader, &mut line, 0, "ab");
    assert_that!(rt, is_inline(&line, "ab"));
}

#[test]
fn a_string_is_used_again(rt: HostRuntime) {
    let rt = &rt;
    let alloc = rt.alloc();
    let mut reader = b"aaaaaaaaaaaaaaaaaaaaaaaaaaaaa\naaaaaaaaaaaaaaa".as_slice();
    let mut line = lasting(alloc, 0);
    assert_reads(
        rt,
        &mut reader,
        &mut line,
        30,
        "aaaaaaaaaaaaaaaaaaaaaaaaaaaaa\n",
    );
    assert_that!(rt, line.is_heap_allocated());
    let capacity = line.capacity();
    line.clear();
    assert_reads(rt, &mut reader, &mut line, 15, ascii_text(15));
    assert_that!(rt, is_at(&line, "heap", capacity, ascii_text(15)));
}

#[test]
fn a_reader_fails_inside_a_line(rt: HostRuntime) {
    let rt = &rt;
    let alloc = rt.alloc();
    let mut line = short(alloc, "x");
    let failing = Stop::Fails(3, ErrorKind::Other);
    let mut reader = byte_by_byte(rt, alloc, b"ab\ncd", failing);
    assert_fails(rt, &mut reader, &mut line, "io", "x");
    assert_reads(rt, &mut reader, &mut line, 1, "x\n");
    let mut reader = byte_by_byte(rt, alloc, b"ab\n", Stop::Fails(1, ErrorKind::Other));
    assert_fails(rt, &mut reader, &mut line, "io", "x\n");
    assert_reads(rt, &mut reader, &mut line, 3, "x\nab\n");
    let full = Stop::Fails(2, ErrorKind::OutOfMemory);
    let mut reader = byte_by_byte(rt, alloc, b"ab\n", full);
    assert_fails(rt, &mut reader, &mut line, "reserve", "x\nab\n");
    assert_reads(rt, &mut reader, &mut line, 2, "x\nab\nb\n");
}

#[test]
fn an_interrupted_read_is_retried(rt: HostRuntime) {
    let rt = &rt;
    let alloc = rt.alloc();
    let mut line = short(alloc, "");
    let first = Stop::Fails(1, ErrorKind::Interrupted);
    let mut reader = byte_by_byte(rt, alloc, b"ab\n", first);
    assert_reads(rt, &mut reader, &mut line, 3, "ab\n");
    let second = Stop::Fails(2, ErrorKind::Interrupted);
    let mut reader = byte_by_byte(rt, alloc, b"c\n", second);
    assert_reads(rt, &mut reader, &mut line, 2, "ab\nc\n");
}

/// Asserts that an invalid line is read whole, and then the next line.
fn assert_skips<R: BufRead>(rt: &impl Abort, alloc: Global, reader: &mut R) {
    let mut line = short(alloc, "x");
    assert_fails(rt, reader, &mut line, "utf8", "x");
    assert_reads(rt, reader, &mut line, 2, "xb\n");
    assert_fails(rt, reader, &mut line, "utf8", "xb\n");
    assert_reads(rt, reader, &mut line, 0, "xb\n");
}

#[test]
fn an_invalid_line_is_read_whole(rt: HostRuntime) {
    let rt = &rt;
    let alloc = rt.alloc();
    let bytes = b"a\xFF\xE2\x82\nb\n\xC3".as_slice();
    let mut reader = bytes;
    assert_skips(rt, alloc, &mut reader);
    let mut reader = byte_by_byte(rt, alloc, bytes, Stop::Never);
    assert_skips(rt, alloc, &mut reader);
}

#[test]
fn errors_convert_to_those_of_std(rt: HostRuntime) {
    let rt = &rt;
    let error = io::Error::from(ReadLineError::Utf8);
    assert_that!(rt, error.kind() == ErrorKind::InvalidData);
    let error = io::Error::from(ReadLineError::from(io::Error::from(ErrorKind::TimedOut)));
    assert_that!(rt, error.kind() == ErrorKind::TimedOut);
    let error = io::Error::from(ReadLineError::from(std::alloc::AllocError));
    assert_that!(rt, error.kind() == ErrorKind::OutOfMemory);
}
