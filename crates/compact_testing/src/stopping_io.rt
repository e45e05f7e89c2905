//! A reader and a writer that take small steps, stop at a given call, and count their calls.

use std::io;
use std::io::{ErrorKind, Read, Write};

/// Where a reader or writer stops. Calls count from 1; every other call goes on.
#[derive(Clone, Copy)]
pub enum Stop {
    /// Never stops.
    Never,
    /// Fails at that call only, with this kind.
    Fails(usize, ErrorKind),
    /// Fails at that call and every later one, with this kind.
    Breaks(usize, ErrorKind),
    /// Returns 0 at that call only.
    Pauses(usize),
    /// Returns 0 at that call and every later one.
    Ends(usize),
}

/// Returns the result of a call if it stops.
fn stopped(stop: Stop, call: usize) -> Option<io::Result<usize>> {
    match stop {
        Stop::Fails(at, kind) if at == call => Some(Err(io::Error::from(kind))),
        Stop::Breaks(at, kind) if at <= call => Some(Err(io::Error::from(kind))),
        Stop::Pauses(at) if at == call => Some(Ok(0)),
        Stop::Ends(at) if at <= call => Some(Ok(0)),
        _ => None,
    }
}

/// Reads bytes, at most `step` a call, and 0 at the end.
#[derive(Drop)]
pub struct Pieces<'a> {
    pub rest: &'a [u8],
    pub step: usize,
    pub calls: usize,
    pub stop: Stop,
}

impl<'a> Pieces<'a> {
    /// Creates a reader of `bytes`.
    pub fn new(bytes: &'a [u8], step: usize, stop: Stop) -> Self {
        Pieces {
            rest: bytes,
            step,
            calls: 0,
            stop,
        }
    }
}

impl Read for Pieces<'_> {
    fn read(&mut self, buf: &mut [u8]) -> io::Result<usize> {
        self.calls = self.calls.saturating_add(1);
        if let Some(stopped) = stopped(self.stop, self.calls) {
            stopped?;
            return Ok(0);
        }
        let count = buf.len().min(self.step).min(self.rest.len());
        buf[..count].copy_from_slice(&self.rest[..count]);
        self.rest = &self.rest[count..];
        Ok(count)
    }
}

/// Writes bytes into a fixed buffer, at most `step` a call, and 0 once it is full.
#[derive(Drop)]
pub struct Narrow {
    taken: [u8; 256],
    len: usize,
    room: usize,
    step: usize,
    calls: usize,
    stop: Stop,
    flushes: usize,
    /// The flush that fails, counted from 1; 0 for none.
    pub broken_flush: usize,
}

impl Narrow {
    /// Creates a writer with room for `room` bytes, at most 256.
    pub fn new(room: usize, step: usize, stop: Stop) -> Self {
        Narrow {
            taken: [0; 256],
            len: 0,
            room: room.min(256),
            step,
            calls: 0,
            stop,
            flushes: 0,
            broken_flush: 0,
        }
    }

    /// Returns the bytes written.
    pub fn bytes(&self) -> &[u8] {
        self.taken.get(..self.len).unwrap_or(&[])
    }
}

impl Write for Narrow {
    fn write(&mut self, buf: &[u8]) -> io::Result<usize> {
        self.calls = self.calls.saturating_add(1);
        if let Some(stopped) = stopped(self.stop, self.calls) {
            stopped?;
            return Ok(0);
        }
        let mut count = 0;
        for byte in buf {
            if count >= self.step || self.len >= self.room || self.len >= 256 {
                break;
            }
            self.taken[self.len] = *byte;
            self.len += 1;
            count += 1;
        }
        Ok(buf.len().min(count))
    }

    fn flush(&mut self) -> io::Result<()> {
        self.flushes = self.flushes.saturating_add(1);
        if self.flushes == self.broken_flush {
            return Err(io::Error::other("broken"));
        }
        Ok(())
    }
}
