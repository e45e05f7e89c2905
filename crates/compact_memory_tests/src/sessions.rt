//! Sessions with no memory: for the reader's buffer, a line, its flags, or the reply to the first edit.

use compact_asserts::assert_equal;
use compact_lines::run_lines;
use compact_testing::memory::{Hog, take_all};
use std::alloc::Global;
use std::io;
use std::io::Read;
use std::process::Abort;

/// A reader of two lines. Its first call takes all memory but a block of `left` bytes; its second frees it.
#[derive(Drop)]
struct Scarce {
    alloc: Global,
    calls: usize,
    first: &'static [u8],
    left: usize,
    hog: Option<Hog>,
}

impl Scarce {
    /// Creates a reader whose first line is `first`.
    fn new(alloc: Global, first: &'static [u8], left: usize) -> Self {
        Scarce {
            alloc,
            calls: 0,
            first,
            left,
            hog: None,
        }
    }
}

impl Read for Scarce {
    fn read(&mut self, buf: &mut [u8]) -> io::Result<usize> {
        self.calls = self.calls.saturating_add(1);
        let line: &[u8] = match self.calls {
            1 => {
                let block = Vec::<u8>::with_capacity(self.alloc, self.left)?;
                self.hog = Some(take_all(self.alloc)?);
                drop(block);
                self.first
            }
            2 => {
                self.hog = None;
                b"push b\n"
            }
            _ => b"",
        };
        let count = line.len().min(buf.len());
        buf[..count].copy_from_slice(&line[..count]);
        Ok(count)
    }
}

/// Asserts that an edit without room for its reply fails, and that the next line is run.
fn assert_fails(rt: &impl Abort, alloc: Global, first: &'static [u8]) {
    let mut reader = Scarce::new(alloc, first, 16);
    let mut output = Vec::with_capacity(alloc, 1000).expect(rt, "memory");
    assert_equal!(rt, run_lines(alloc, &mut reader, &mut output), 0);
    let printed: &[u8] = b"refused\ninline 0 24 \ndone\ninline 1 24 b\n";
    assert_equal!(rt, output.as_slice(), printed);
}

#[test]
fn an_edit_without_room_for_its_reply_fails(rt: HostRuntime) {
    assert_fails(&rt, rt.alloc(), b"push a\n");
}

#[test]
fn the_room_for_a_reply_comes_before_a_bad_position(rt: HostRuntime) {
    assert_fails(&rt, rt.alloc(), b"insert 9 x\n");
}

#[test]
fn a_reader_without_memory_for_its_buffer_ends_with_1(rt: HostRuntime) {
    let rt = &rt;
    let alloc = rt.alloc();
    let mut output = Vec::with_capacity(alloc, 1000).expect(rt, "memory");
    let mut input: &[u8] = b"clear\n";
    let mut nothing: &[u8] = b"";
    let hog = take_all(alloc).expect(rt, "room for the list of blocks");
    assert_equal!(rt, run_lines(alloc, &mut input, &mut output), 1);
    assert_equal!(rt, run_lines(alloc, &mut nothing, &mut output), 1);
    drop(hog);
    assert_equal!(rt, output.len(), 0);
}

/// Asserts that a session with only a block of `left` bytes for its first line ends with 1, and prints nothing.
fn assert_stops(rt: &impl Abort, alloc: Global, first: &'static [u8], left: usize) {
    let mut reader = Scarce::new(alloc, first, left);
    let mut output = Vec::with_capacity(alloc, 1000).expect(rt, "memory");
    assert_equal!(rt, run_lines(alloc, &mut reader, &mut output), 1);
    assert_equal!(rt, output.len(), 0);
}

#[test]
fn without_memory_for_a_line_the_status_is_1(rt: HostRuntime) {
    assert_stops(&rt, rt.alloc(), b"pop\n", 0);
}

#[test]
fn without_memory_for_flags_the_status_is_1(rt: HostRuntime) {
    assert_stops(&rt, rt.alloc(), b"retain 1\n", 16);
}
