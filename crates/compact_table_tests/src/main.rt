//! Calls of the library while allocations fail: at the first, at the second, and so on until the call succeeds.
//!
//! The program reads a table on standard input, takes all memory that the process can get, and tries each line,
//! granting no more than the allocations that it names. It writes the lines that do not hold, with what is seen
//! instead, and the number of cases. Its status is 1 if one does not hold. A line reads
//!
//! ```text
//! START | CALL OPERANDS | ALLOCATIONS | RESULT | AFTER
//! heap | push_str 0123456789*4 | more 70 | done | heap 70 a..D+0123456789*4
//! ```
//!
//! The fields are the value that the call is tried on; the call; its allocations, in order; its result; and the place,
//! capacity and text afterwards. Each time an allocation fails the value must be unchanged. The head of the table says
//! what each field may hold. Blank lines, and those that begin with `#`, are no cases.
//!
//! Cases that no line can express are functions of the modules `allocating_cases`, `free_cases`, `numbers`, `interner`,
//! `strings` and `records`.
#![tactic(auto)]

mod allocating_cases;
mod calls;
mod constructors;
mod conversions;
mod decoding;
mod edits;
mod extending;
mod failed_cases;
mod formatting;
mod free_cases;
mod interner;
mod long_texts;
mod memory;
mod numbers;
mod owned_operands;
mod records;
mod strings;
mod table;
mod try_line;
mod values;
mod within;

use failed_cases::Faults;
use long_texts::expanded;
use std::alloc::Global;
use std::io;
use std::io::{Read, Write};
use std::process::ExitCode;
use table::{Case, read_case};
use try_line::Trial;

fn main(rt: HostRuntime) -> ExitCode {
    let mut reader = rt.stdin();
    let mut writer = io::writer(&rt);
    match print_faults(rt.alloc(), &mut reader, &mut writer) {
        Ok(true) => ExitCode::SUCCESS,
        Ok(false) | Err(_) => ExitCode::FAILURE,
    }
}

/// Reads the table to its end, tries each line, and writes those that do not hold. Returns `true` if all hold.
fn print_faults<R: Read, W: Write>(
    alloc: Global,
    reader: &mut R,
    writer: &mut W,
) -> io::Result<bool> {
    let mut table = String::new(alloc);
    reader.read_to_string(&mut table)?;
    let faults = tried(alloc, table.as_str())?;
    write_faults(&faults, writer)?;
    Ok(faults.count == 0)
}

/// Writes the cases that do not hold, and the number of cases.
fn write_faults<W: Write>(faults: &Faults, writer: &mut W) -> io::Result<()> {
    writer.write_all(faults.text().as_bytes())?;
    let (cases, count) = (faults.cases, faults.count);
    writeln!(writer, "{cases} cases, {count} do not hold")?;
    writer.flush()
}

/// Tries the cases in functions, then each line of a table.
fn tried(alloc: Global, table: &str) -> io::Result<Faults> {
    let text = expanded(alloc, table)?;
    try_table(alloc, table, text.as_str())
}

/// The same, where `text` is the table expanded.
fn try_table(alloc: Global, table: &str, text: &str) -> io::Result<Faults> {
    let mut faults = Faults::new(alloc)?;
    let cases = read_cases(alloc, table, text, &mut faults)?;
    try_cases(alloc, faults, &cases)
}

/// Takes all memory, tries the cases, and frees it.
fn try_cases(alloc: Global, faults: Faults, cases: &[Case<'_>]) -> io::Result<Faults> {
    let mut trial = Trial::new(alloc, faults)?;
    trial.apart();
    trial.cases(cases);
    Ok(trial.finish())
}

/// Reads each line of a table, except comments and blank lines.
fn read_cases<'a>(
    alloc: Global,
    table: &'a str,
    text: &'a str,
    faults: &mut Faults,
) -> io::Result<Vec<Case<'a>>> {
    let mut cases = Vec::new(alloc);
    for (line, text) in table.lines().zip(text.lines()) {
        if line.starts_with('#') || line.trim().is_empty() {
            continue;
        }
        match read_case(alloc, line, text) {
            Some(case) => cases.push(case)?,
            None => faults.unread(line),
        }
    }
    Ok(cases)
}
