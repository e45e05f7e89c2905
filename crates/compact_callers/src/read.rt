//! Values read by way of a `String`, and a writer to either.

use compact_str::CompactString;
use std::alloc::Global;
use std::io::{BufRead, Read};
use std::{fmt, io};

/// Reads a line with its line feed. Returns an empty text at the end.
pub fn next_line<B: BufRead>(alloc: Global, reader: &mut B) -> io::Result<CompactString> {
    let mut line = String::new(alloc);
    reader.read_line(&mut line)?;
    Ok(CompactString::from(line))
}

/// Reads to the end.
pub fn what_is_left<R: Read>(alloc: Global, reader: &mut R) -> io::Result<CompactString> {
    let mut text = String::new(alloc);
    reader.read_to_string(&mut text)?;
    Ok(CompactString::from(text))
}

/// Writes a greeting to a `String` or a value.
pub fn greet<W: fmt::Write>(out: &mut W, name: &str) -> fmt::Result {
    write!(out, "Hello, {name}!")
}
