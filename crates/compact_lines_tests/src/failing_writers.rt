//! The program over a reader and a writer that stop at each of their calls in turn: what was written is kept.

use compact_asserts::assert_equal;
use compact_lines::run_lines;
use compact_testing::stopping_io::{Narrow, Pieces, Stop};
use std::alloc::Global;
use std::io::ErrorKind;
use std::process::Abort;

/// Three commands and a line that is no command: lines of 8, 8, 1 and 7 bytes.
const INPUT: &[u8] = b"new abc\npush \xC3\xA4\n\nrepeat\n";

/// The bytes read before one more line is run, and the output then.
const ANSWERS: [(usize, &str); 5] = [
    (0, ""),
    (8, "done\ninline 3 24 abc\n"),
    (16, "done\ninline 3 24 abc\ndone\ninline 5 24 abcä\n"),
    (17, "done\ninline 3 24 abc\ndone\ninline 5 24 abcä\n?\n"),
    (24, "done\ninline 3 24 abc\ndone\ninline 5 24 abcä\n?\n?\n"),
];

/// The whole output.
const WHOLE: &[u8] = b"done\ninline 3 24 abc\ndone\ninline 5 24 abc\xC3\xA4\n?\n?\n";

/// Returns the output once `count` bytes are read.
fn written_after(count: usize) -> &'static str {
    let mut written = "";
    for (read, text) in ANSWERS {
        if read <= count {
            written = text;
        }
    }
    written
}

/// Asserts the status and output of a session that reads one byte a call.
fn assert_read(rt: &impl Abort, alloc: Global, stop: Stop, status: u8, written: &[u8]) {
    let mut reader = Pieces::new(INPUT, 1, stop);
    let mut writer = Narrow::new(256, 256, Stop::Never);
    assert_equal!(rt, run_lines(alloc, &mut reader, &mut writer), status);
    assert_equal!(rt, writer.bytes(), written);
}

#[test]
fn a_reader_that_fails_leaves_the_earlier_output(rt: HostRuntime) {
    let alloc = rt.alloc();
    for given in 0..INPUT.len() + 1 {
        let stop = Stop::Fails(given + 1, ErrorKind::Other);
        assert_read(&rt, alloc, stop, 1, written_after(given).as_bytes());
    }
    assert_read(&rt, alloc, Stop::Never, 0, WHOLE);
}

#[test]
fn an_interrupted_read_is_repeated(rt: HostRuntime) {
    for call in 1..INPUT.len() + 2 {
        let stop = Stop::Fails(call, ErrorKind::Interrupted);
        assert_read(&rt, rt.alloc(), stop, 0, WHOLE);
    }
}

/// Asserts the status and output of a session that writes one byte a call.
fn assert_written(rt: &impl Abort, alloc: Global, mut writer: Narrow, status: u8, taken: &[u8]) {
    let mut input = INPUT;
    assert_equal!(rt, run_lines(alloc, &mut input, &mut writer), status);
    assert_equal!(rt, writer.bytes(), taken);
}

#[test]
fn a_writer_that_fails_has_what_it_took_before(rt: HostRuntime) {
    let rt = &rt;
    let alloc = rt.alloc();
    for call in 1..WHOLE.len() + 1 {
        let taken = WHOLE.get(..call - 1).unwrap_or(&[]);
        let broken = Narrow::new(256, 1, Stop::Breaks(call, ErrorKind::Other));
        assert_written(rt, alloc, broken, 1, taken);
        let full = Narrow::new(256, 1, Stop::Ends(call));
        assert_written(rt, alloc, full, 1, taken);
        let interrupted = Narrow::new(256, 1, Stop::Fails(call, ErrorKind::Interrupted));
        assert_written(rt, alloc, interrupted, 0, WHOLE);
    }
    let late = Narrow::new(256, 1, Stop::Breaks(WHOLE.len() + 1, ErrorKind::Other));
    assert_written(rt, alloc, late, 0, WHOLE);
}

#[test]
fn a_writer_that_fails_once_has_what_it_took_before(rt: HostRuntime) {
    let alloc = rt.alloc();
    for call in 1..WHOLE.len() + 1 {
        let taken = WHOLE.get(..call - 1).unwrap_or(&[]);
        let failing = Narrow::new(256, 1, Stop::Fails(call, ErrorKind::Other));
        assert_written(&rt, alloc, failing, 1, taken);
        let pausing = Narrow::new(256, 1, Stop::Pauses(call));
        assert_written(&rt, alloc, pausing, 1, taken);
    }
}

#[test]
fn a_flush_that_fails_ends_the_session(rt: HostRuntime) {
    for line in 1..5 {
        let mut writer = Narrow::new(256, 256, Stop::Never);
        writer.broken_flush = line;
        let taken = ANSWERS.get(line).map_or("", |answer| answer.1);
        assert_written(&rt, rt.alloc(), writer, 1, taken.as_bytes());
    }
}

#[test]
fn no_input_prints_nothing(rt: HostRuntime) {
    let mut reader = Pieces::new(b"", 1, Stop::Never);
    let mut writer = Narrow::new(256, 1, Stop::Fails(1, ErrorKind::Other));
    assert_equal!(&rt, run_lines(rt.alloc(), &mut reader, &mut writer), 0);
    assert_equal!(&rt, writer.bytes().len(), 0);
}
