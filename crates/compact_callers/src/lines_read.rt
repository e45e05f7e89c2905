//! Lines read into strings that are used again.
ghost use Rattle.std.specs.Prelude.{◌≡◌, IfSome, OnSome, OnOk};
ghost use Rattle.std.specs.Io.BufRead.{drop_through, take_through};
ghost use Rattle.std.specs.Io.KnownBytes.{IsAtEnd};
ghost use Rattle.compact_str.specs.Text.{utf8};
ghost use Rattle.compact_ext.specs.Lines.{newline};

use compact_ext::{ReadLineError, read_line};
use compact_str::CompactString;
use std::alloc::Global;
use std::io;
use std::io::{BufRead, ErrorKind};

/// Reads a record of two lines, its key and its value. Returns `false` at the end.
pub fn next_pair<R: BufRead>(
    reader: &mut R,
    key: &mut CompactString,
    value: &mut CompactString,
) -> Result<bool, ReadLineError>
    ensures key { OnOk result (IfSome (R.remaining reader.old)
        (λ bytes. utf8 key.new.text ≡ take_through newline bytes)) }
    ensures value { OnOk result (IfSome (R.remaining reader.old)
        (λ bytes. utf8 value.new.text ≡ take_through newline (drop_through newline bytes))) }
{
    key.clear();
    let len = read_line(reader, key)?;
    value.clear();
    read_line(reader, value)?;
    Ok(len > 0)
}

/// Returns the length of the longest line in bytes, with its newline. Reads to the end.
pub fn longest_line<R: BufRead>(alloc: Global, reader: &mut R) -> Result<usize, ReadLineError>
    ensures end { OnOk result
        (OnSome (R.remaining reader.old) (IsAtEnd (R.remaining reader.new))) }
{
    let mut line = CompactString::default(alloc);
    let mut longest = 0;
    'lines: for _ in 0..u64::MAX {
        line.clear();
        let len = read_line(reader, &mut line)?;
        if len == 0 {
            return Ok(longest);
        }
        longest = longest.max(len);
    }
    Err(ReadLineError::from(io::Error::from(ErrorKind::TimedOut)))
}

/// Returns the first line of a text without its newline, with an I/O error.
pub fn first_line<R: BufRead>(alloc: Global, reader: &mut R) -> io::Result<CompactString> {
    let mut line = CompactString::default(alloc);
    read_line(reader, &mut line)?;
    if line.as_str().ends_with('\n') {
        line.pop();
    }
    Ok(line)
}
