//! The writer of a report. The invariant of the loop in `report` is in a proof file.
#![tactic(auto, using(compact_str::proofs::ForCallers::caller_facts, compact_ext::proofs::ForCallers::shown_facts))]

ghost use Rattle.std.specs.Prelude.{◌≡◌, ◌++◌, IfOk, OnOk};
ghost use Rattle.compact_callers.specs.Reports.{row_line, lines_of, report_of};

use compact_ext::{ToCompactStringError, format_compact};
use compact_str::CompactString;
use std::alloc::Global;

/// The name and number of a line.
#[derive(Drop)]
pub struct Row {
    pub name: CompactString,
    pub number: u64,
}

/// Formats a line: a name, a colon and a number.
pub fn line(alloc: Global, row: &Row) -> Result<CompactString, ToCompactStringError>
    ensures { IfOk result (λ v. v.text ≡ row_line row.now) }
{
    let (name, number) = (row.name.as_str(), row.number);
    let line = format_compact!(in alloc; "{name}: {number}\n")?;
    Ok(line)
}

/// Concatenates the lines of a report.
#[tactic(auto)]
pub fn report(alloc: Global, rows: &[Row]) -> Result<CompactString, ToCompactStringError>
    ensures { IfOk result (λ v. v.text ≡ report_of rows.now) }
{
    let mut report = CompactString::default(alloc);
    for row in rows {
        let line = line(alloc, row)?;
        report.push_str(line.as_str())?;
    }
    Ok(report)
}

/// A linked list of rows.
#[derive(Drop)]
pub enum Rows {
    End,
    Then(Row, Box<Rows>),
}

/// Appends the lines of a list of rows.
#[tactic(auto)]
pub fn append_rows(report: &mut CompactString, rows: &Rows) -> Result<(), ToCompactStringError>
    ensures { OnOk result (report.new.text ≡ report.old.text ++ lines_of rows.now) }
{
    match rows {
        Rows::End => Ok(()),
        Rows::Then(row, rest) => {
            let line = line(report.allocator(), row)?;
            report.push_str(line.as_str())?;
            append_rows(report, rest)?;
            Ok(())
        }
    }
}
