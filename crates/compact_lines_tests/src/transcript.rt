//! Sessions with the program, asserted by what it prints.

use compact_asserts::{assert_equal, that_for};
use compact_lines::run_lines;
use std::alloc::Global;
use std::process::Abort;

/// Asserts what the program prints for an input, and that it succeeds.
pub fn assert_prints(rt: &impl Abort, alloc: Global, mut input: &[u8], printed: &[u8]) {
    let mut output = Vec::new(alloc);
    assert_equal!(rt, run_lines(alloc, &mut input, &mut output), 0);
    assert_equal!(rt, output.as_slice(), printed);
}

/// Asserts each session of a transcript. A line with `#` says what the session after it shows, one with `>` is read by
/// the program, and any other is printed.
pub fn assert_sessions(rt: &impl Abort, alloc: Global, transcript: &str) {
    for session in transcript.split("# ").skip(1) {
        assert_session(rt, alloc, session);
    }
}

/// Asserts a session, whose first line says what it shows.
fn assert_session(rt: &impl Abort, alloc: Global, session: &str) {
    let mut input = Vec::new(alloc);
    let mut printed = Vec::new(alloc);
    let (_, lines) = session
        .split_once('\n')
        .expect(rt, "lines behind the first");
    for line in lines.lines() {
        match line.strip_prefix("> ") {
            Some(command) => add_line(rt, &mut input, command),
            None => add_line(rt, &mut printed, line),
        }
    }
    let mut output = Vec::new(alloc);
    that_for(
        session,
        run_lines(alloc, &mut input.as_slice(), &mut output) == 0,
    )
    .expect(rt, "it holds");
    that_for(session, output.as_slice() == printed.as_slice()).expect(rt, "it holds");
}

fn add_line(rt: &impl Abort, lines: &mut Vec<u8>, line: &str) {
    lines
        .extend_from_slice(line.as_bytes())
        .expect(rt, "memory");
    lines.push(b'\n').expect(rt, "memory");
}
