//! A reader of any number of `a`s that does not allocate.

use std::io;
use std::io::Read;

/// Yields the four bytes of a length, then `a`s, without allocating.
#[derive(Drop)]
pub struct EndlessReader {
    pub head: [u8; 4],
    pub given: usize,
    pub letters: usize,
}

impl EndlessReader {
    /// Creates a reader that claims `len` bytes and has `letters`.
    pub fn new(len: u32, letters: usize) -> Self {
        EndlessReader {
            head: len.to_le_bytes(),
            given: 0,
            letters,
        }
    }
}

impl Read for EndlessReader {
    fn read(&mut self, buf: &mut [u8]) -> io::Result<usize> {
        if buf.is_empty() {
            return Ok(0);
        }
        if self.given < 4 {
            buf[0] = self.head[self.given];
            self.given += 1;
            return Ok(1);
        }
        let count = buf.len().min(self.letters);
        for byte in &mut buf[..count] {
            *byte = b'a';
        }
        self.letters -= count;
        self.given = self.given.saturating_add(count);
        Ok(count)
    }
}
