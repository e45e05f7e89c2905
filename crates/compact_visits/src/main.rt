//! Reads visits as lines of JSON on standard input, and writes their sources as lines of JSON.
//!
//! For a line that is no visit it writes a line that says where and why; the others are counted all the same. The
//! status is then 1, and 0 if each line was counted.
#![tactic(auto)]

mod fault;
mod sources;
mod visit;

use anyhow::Result;
use fault::Fault;
use serde::Serialize;
use sources::Sources;
use std::alloc::Global;
use std::io;
use std::io::{BufRead, BufReader, BufWriter, Read, Write};
use std::process::ExitCode;
use visit::Visit;

fn main(rt: HostRuntime) -> ExitCode {
    let mut reader = rt.stdin();
    let mut writer = io::writer(&rt);
    match count_visits(rt.alloc(), &mut reader, &mut writer) {
        Ok(true) => ExitCode::SUCCESS,
        Ok(false) | Err(_) => ExitCode::FAILURE,
    }
}

/// Counts the visits of a reader, one a line. Writes a line for each that is no visit, and then one for each source.
///
/// Returns `true` if each line was a visit. Fails if the reader, the writer or an allocation does.
fn count_visits<R: Read, W: Write>(alloc: Global, reader: &mut R, writer: &mut W) -> Result<bool> {
    let mut reader = BufReader::new(alloc, reader)?;
    let mut writer = BufWriter::new(alloc, writer)?;
    count_and_report(alloc, &mut reader, &mut writer)
}

/// Counts the visits of lines, and writes the sources. Returns `true` if each line is a visit.
fn count_and_report<B: BufRead, W: Write>(
    alloc: Global,
    reader: &mut B,
    writer: &mut W,
) -> Result<bool> {
    let mut sources = Sources::new(alloc);
    let all_counted = count_lines(alloc, &mut sources, reader, writer)?;
    write_sources(alloc, writer, sources)?;
    Ok(all_counted)
}

/// Counts the visits of lines, or writes their faults. Returns `true` if each line is a visit.
fn count_lines<B: BufRead, W: Write>(
    alloc: Global,
    sources: &mut Sources,
    reader: &mut B,
    writer: &mut W,
) -> Result<bool> {
    let mut line = Vec::new(alloc);
    let mut all_counted = true;
    // No program runs for that many lines.
    for number in 1..usize::MAX {
        line.clear();
        if reader.read_until(b'\n', &mut line)? == 0 {
            break;
        }
        if !count_line(alloc, sources, writer, number, without_end(line.as_slice()))? {
            all_counted = false;
        }
    }
    Ok(all_counted)
}

/// A line without its newline.
fn without_end(line: &[u8]) -> &[u8] {
    line.strip_suffix(b"\n").unwrap_or(line)
}

/// Counts the visit of a line, whose number counts from 1, or writes its fault. Returns `true` if it is a visit.
fn count_line<W: Write>(
    alloc: Global,
    sources: &mut Sources,
    writer: &mut W,
    number: usize,
    line: &[u8],
) -> Result<bool> {
    match serde_json::from_slice::<Visit>(alloc, line) {
        Ok(visit) => {
            sources.count(alloc, visit)?;
            Ok(true)
        }
        Err(error) => {
            let fault = Fault::new(alloc, number, &error)?;
            write_line(alloc, writer, &fault)?;
            Ok(false)
        }
    }
}

/// Writes a value as a line of JSON.
fn write_line<T: Serialize, W: Write>(alloc: Global, writer: &mut W, value: &T) -> Result<()> {
    let line = serde_json::to_string(alloc, value)?;
    writeln!(writer, "{line}")?;
    Ok(())
}

/// Writes a line for each source, and flushes the writer.
fn write_sources<W: Write>(alloc: Global, writer: &mut W, sources: Sources) -> Result<()> {
    for source in &sources.into_sorted(alloc)? {
        write_line(alloc, writer, source)?;
    }
    writer.flush()?;
    Ok(())
}
