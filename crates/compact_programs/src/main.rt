//! Three whole programs over one string type, for `bench/programs.py`: it builds them over this library's type, and over
//! the `String` of the standard library.
//!
//! Each reads standard input: `keep` counts words, `push` decodes and lowers characters, and `write` writes a report.
//! With no argument all three run on the input.
#![tactic(auto)]

mod keep;
mod push;
mod text;
mod write;

use std::alloc::Global;
use std::io::{BufWriter, Read, Write};
use std::process::ExitCode;
use std::{env, io, str};

fn main(rt: HostRuntime) -> ExitCode {
    let Ok(mut arguments) = env::args(&rt) else {
        return ExitCode::FAILURE;
    };
    let wanted = arguments.nth(1);
    let wanted = match &wanted {
        Some(name) => name.as_str(),
        None => "",
    };
    let Ok(mut writer) = BufWriter::new(rt.alloc(), io::writer(&rt)) else {
        return ExitCode::FAILURE;
    };
    match run(rt.alloc(), wanted, &mut rt.stdin(), &mut writer) {
        Ok(()) => ExitCode::SUCCESS,
        Err(_) => ExitCode::FAILURE,
    }
}

/// Reads a text to its end, and runs the program of that name on it, or all if the name is empty.
fn run<R: Read, W: Write>(
    alloc: Global,
    wanted: &str,
    reader: &mut R,
    writer: &mut W,
) -> io::Result<()> {
    let mut bytes = Vec::new(alloc);
    reader.read_to_end(&mut bytes)?;
    let Ok(input) = str::from_utf8(bytes.as_slice()) else {
        return Err(io::Error::from(io::ErrorKind::InvalidData));
    };
    if wanted != "push" && wanted != "write" {
        keep::count(alloc, input, writer)?;
    }
    if wanted != "keep" && wanted != "write" {
        push::decode(alloc, input, writer)?;
    }
    if wanted != "keep" && wanted != "push" {
        write::report(alloc, input, writer)?;
    }
    writer.flush()
}
