//! Sessions of lines, and readers and writers that fail.

use crate::transcript::{assert_prints, assert_sessions};
use compact_asserts::{assert_equal, assert_that};
use compact_lines::run_lines;
use std::alloc::Global;
use std::io;
use std::io::{Read, Write};
use std::process::Abort;

/// A reader and writer that always fails.
#[derive(Drop)]
struct Broken;

impl Read for Broken {
    fn read(&mut self, _buf: &mut [u8]) -> io::Result<usize> {
        Err(io::Error::other("broken"))
    }
}

impl Write for Broken {
    fn write(&mut self, _buf: &[u8]) -> io::Result<usize> {
        Err(io::Error::other("broken"))
    }

    fn flush(&mut self) -> io::Result<()> {
        Err(io::Error::other("broken"))
    }
}

/// Commands of each kind, and other lines.
const COMMANDS: &str = "\
# three edits are answered\n\
> new i am 24 characters long!\n\
done\n\
inline 24 24 i am 24 characters long!\n\
> pushstr x\n\
done\n\
heap 25 36 i am 24 characters long!x\n\
> clear\n\
done\n\
heap 0 36 \n\
# all places are seen\n\
> static\n\
done\n\
static 30 30 aaaaaaaaaaaaaaaaaaaaaaaaaaaaaa\n\
> clear\n\
done\n\
static 0 0 \n\
> clonefrom abc\n\
done\n\
inline 3 24 abc\n\
> cap 100\n\
done\n\
heap 0 100 \n\
> shrinkto 50\n\
done\n\
heap 0 50 \n\
> shrinktofit\n\
done\n\
inline 0 24 \n\
> cap 72057594037927935\n\
refused\n\
inline 0 24 \n\
# an edit with no text is done\n\
> new abc\n\
done\n\
inline 3 24 abc\n\
> pushstr\n\
done\n\
inline 3 24 abc\n\
> pushstr \n\
done\n\
inline 3 24 abc\n\
# a new text may be empty\n\
> new\n\
done\n\
inline 0 24 \n\
# a capacity that cannot be read is marked alone\n\
> cap\n\
?\n\
> cap \n\
?\n\
> cap x\n\
?\n\
> cap +5\n\
?\n\
> cap -1\n\
?\n\
> cap 1 \n\
?\n\
> cap  1\n\
?\n\
# a number past all, or behind a command that takes none, is marked alone\n\
> reserve 18446744073709551616\n\
?\n\
> static \n\
?\n\
> shrinktofit x\n\
?\n\
> Clear\n\
?\n\
# a number may begin with zeros\n\
> cap 0030\n\
done\n\
heap 0 32 \n\
# reserving past any number is refused\n\
> new abc\n\
done\n\
inline 3 24 abc\n\
> reserve 18446744073709551615\n\
refused\n\
inline 3 24 abc\n\
> reserve 40\n\
done\n\
heap 3 43 abc\n";

#[test]
fn commands_print_their_outcome(rt: HostRuntime) {
    assert_sessions(&rt, rt.alloc(), COMMANDS);
}

#[test]
fn invalid_bytes_are_no_command(rt: HostRuntime) {
    assert_prints(
        &rt,
        rt.alloc(),
        b"foo\n\nnew \xff\nclear \nnew ab\n",
        b"?\n?\n?\n?\ndone\ninline 2 24 ab\n",
    );
}

#[test]
fn a_carriage_return_belongs_to_the_line(rt: HostRuntime) {
    assert_prints(
        &rt,
        rt.alloc(),
        b"new ab\r\nclear\r\n",
        b"done\ninline 3 24 ab\r\n?\n",
    );
}

#[test]
fn the_last_line_may_lack_its_end(rt: HostRuntime) {
    let alloc = rt.alloc();
    assert_prints(&rt, alloc, b"new ab", b"done\ninline 2 24 ab\n");
    assert_prints(&rt, alloc, b"", b"");
}

/// The line `pushstr` with a million `a`s.
fn a_million_characters(rt: &impl Abort, alloc: Global) -> Vec<u8> {
    let mut line = Vec::with_capacity(alloc, 1_000_009).expect(rt, "memory");
    line.extend_from_slice(b"pushstr ").expect(rt, "memory");
    for _ in 0..1_000_000 {
        line.push(b'z').expect(rt, "memory");
    }
    line.push(b'\n').expect(rt, "memory");
    line
}

#[test]
fn a_line_of_a_million_bytes_is_read(rt: HostRuntime) {
    let rt = &rt;
    let alloc = rt.alloc();
    let input = a_million_characters(rt, alloc);
    let mut output = Vec::new(alloc);
    assert_equal!(rt, run_lines(alloc, &mut input.as_slice(), &mut output), 0);
    // `done`, then place, length and capacity are 26 bytes; the text and its newline follow.
    assert_equal!(rt, output.len(), 26 + 1_000_000 + 1);
    assert_that!(
        rt,
        output
            .as_slice()
            .starts_with(b"done\nheap 1000000 1000000 zzz"),
    );
}

#[test]
fn a_thousand_flags_are_read(rt: HostRuntime) {
    let rt = &rt;
    let alloc = rt.alloc();
    let mut input = Vec::new(alloc);
    input
        .extend_from_slice(b"new abc\nretain 010")
        .expect(rt, "memory");
    input.resize(1018, b'1').expect(rt, "memory");
    let printed = b"done\ninline 3 24 abc\ndone\ninline 1 24 b\n";
    assert_prints(rt, alloc, &input, printed);
}

#[test]
fn a_failing_reader_ends_with_1(rt: HostRuntime) {
    let alloc = rt.alloc();
    let mut output = Vec::new(alloc);
    assert_equal!(&rt, run_lines(alloc, &mut Broken, &mut output), 1);
    assert_equal!(&rt, output.len(), 0);
}

/// Returns the status for an input when nothing can be written.
fn status_of_unwritten(alloc: Global, mut input: &[u8]) -> u8 {
    run_lines(alloc, &mut input, &mut Broken)
}

#[test]
fn a_failing_writer_ends_with_1_once_it_is_used(rt: HostRuntime) {
    let alloc = rt.alloc();
    assert_equal!(&rt, status_of_unwritten(alloc, b"clear\n"), 1);
    assert_equal!(&rt, status_of_unwritten(alloc, b"foo\n"), 1);
    assert_equal!(&rt, status_of_unwritten(alloc, b""), 0);
}
