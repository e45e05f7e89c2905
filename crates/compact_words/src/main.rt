//! Reads a text on standard input, and prints its ten most frequent words with their counts, in columns.
#![tactic(auto, using(compact_str::proofs::ForCallers::caller_facts))]

ghost use Rattle.std.specs.Prelude.{map, IfSome, OnOk};
ghost use Rattle.std.specs.Io.KnownBytes.{Appends};
ghost use Rattle.compact_str.specs.Order.{text_in};
ghost use Rattle.compact_words.specs.Reports.{bytes_of_lines, counted_text, AppendsReport};

mod frequent;

use compact_str::CompactString;
use frequent::frequent_words;
use std::alloc::Global;
use std::io;
use std::io::{BufWriter, Read, Write};
use std::process::ExitCode;

/// The number of words printed.
const MOST: usize = 10;

fn main(rt: HostRuntime) -> ExitCode {
    let Ok(mut writer) = BufWriter::new(rt.alloc(), io::writer(&rt)) else {
        return ExitCode::FAILURE;
    };
    match print_words(rt.alloc(), &mut rt.stdin(), &mut writer) {
        Ok(()) => ExitCode::SUCCESS,
        Err(_) => ExitCode::FAILURE,
    }
}

/// Reads a text to its end, writes a line for each of its most frequent words, and flushes.
///
/// Invalid input counts as U+FFFD, which is not alphabetic. ASCII uppercase counts as lowercase.
fn print_words<R: Read, W: Write>(alloc: Global, reader: &mut R, writer: &mut W) -> io::Result<()>
    ensures { OnOk result (IfSome (R.remaining reader.old) (λ bytes.
        AppendsReport (counted_text bytes) 10 (W.contents writer.old) (W.contents writer.new))) }
{
    let mut bytes = Vec::new(alloc);
    reader.read_to_end(&mut bytes)?;
    let Ok(mut text) = CompactString::from_utf8_lossy(alloc, bytes.as_slice()) else {
        return Err(io::Error::from(io::ErrorKind::OutOfMemory));
    };
    if text.make_ascii_lowercase().is_err() {
        return Err(io::Error::from(io::ErrorKind::OutOfMemory));
    }
    let Ok(lines) = frequent_words(alloc, &text, MOST) else {
        return Err(io::Error::from(io::ErrorKind::OutOfMemory));
    };
    write_lines(&lines, writer)?;
    writer.flush()
}

/// Writes lines, each with its newline.
fn write_lines<W: Write>(lines: &[CompactString], writer: &mut W) -> io::Result<()>
    ensures { OnOk result (Appends (W.contents writer.old) (W.contents writer.new)
        (bytes_of_lines (map text_in lines.now))) }
{
    for line in lines {
        writer.write_all(line.as_bytes())?;
        writer.write_all(b"\n")?;
    }
    Ok(())
}
