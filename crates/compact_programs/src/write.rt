//! A program that builds a text by `write!`: a report with a line for each of the input.

use crate::text::{Refused, Text};
use std::alloc::Global;
use std::io;
use std::io::Write;

/// Writes the report.
pub fn report<W: Write>(alloc: Global, input: &str, writer: &mut W) -> io::Result<()> {
    let Ok(report) = written(alloc, input) else {
        return Err(io::Error::from(io::ErrorKind::OutOfMemory));
    };
    writer.write_all(report.as_bytes())
}

/// Returns the report: each line with its number and its length.
fn written(alloc: Global, input: &str) -> Result<Text, Refused> {
    let mut report = Text::from_str(alloc, "")?;
    let mut number: u64 = 0;
    for line in input.lines() {
        number = number.wrapping_add(1);
        if write!(report, "{number}: {line}").is_err() {
            return Err(Refused);
        }
        if write!(report, " ({})\n", line.len()).is_err() {
            return Err(Refused);
        }
    }
    Ok(report)
}
