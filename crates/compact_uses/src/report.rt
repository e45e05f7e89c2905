//! Records as rows of aligned columns.
ghost use Rattle.std.specs.Prelude.{◌≡◌, ◌++◌, [], length, map, IfOk, OnOk, IsOk};
ghost use Rattle.std.specs.List.{All};
ghost use Rattle.compact_str.specs.Text.{text_of};
ghost use Rattle.compact_str.specs.Order.{text_in};
ghost use Rattle.compact_uses.specs.Columns.{field_at, column_width, column_count, widths_of, cell, row_text, row_width};

use compact_str::{CompactString, ReserveError};
use std::alloc::Global;

/// Formats each record as a line, in columns as wide as their longest field, in characters. Missing fields are empty
/// cells.
///
/// # Errors
///
/// Returns [`ReserveError`] if no memory is found. Never fails if there are no records.
///
/// # Examples
///
/// The fields `ab` and `1` are formatted as `| ab | 1 |`.
pub fn aligned_rows(
    alloc: Global,
    table: &[Vec<CompactString>],
) -> Result<Vec<CompactString>, ReserveError>
    ensures rows { IfOk result
        (λ lines. map text_in lines.items
        ≡ map (λ fields. row_text (widths_of table.now) fields.items) table.now) }
    ensures widths { IfOk result
        (λ lines. All (λ line. length line.text ≡ row_width (widths_of table.now)) lines.items) }
    ensures succeeds { table.now ≡ [] → IsOk result }
{
    let widths = widths_of(alloc, table)?;
    let mut lines = Vec::new(alloc);
    for fields in table {
        let line = row(alloc, fields, &widths)?;
        lines.push(line)?;
    }
    Ok(lines)
}

/// Returns the width of each column, in characters.
fn widths_of(alloc: Global, table: &[Vec<CompactString>]) -> Result<Vec<usize>, ReserveError>
    ensures widths { IfOk result (λ widths. widths.items ≡ widths_of table.now) }
    ensures succeeds { table.now ≡ [] → IsOk result }
{
    let mut widths = Vec::new(alloc);
    for column in 0..column_count(table) {
        widths.push(column_width(table, column))?;
    }
    Ok(widths)
}

/// Returns the number of fields of the longest record.
fn column_count(table: &[Vec<CompactString>]) -> usize
    ensures { result ≡ column_count table.now }
{
    let mut count = 0;
    for fields in table {
        count = usize::max(count, fields.len());
    }
    count
}

/// Returns the number of characters of a column's longest field.
fn column_width(table: &[Vec<CompactString>], column: usize) -> usize
    ensures { result ≡ column_width table.now column }
{
    let mut width = 0;
    for fields in table {
        width = usize::max(width, char_count(field_at(fields, column)));
    }
    width
}

/// Returns the field of a column, or the empty text if the record is too short.
#[tactic(auto, using(crate::proofs::RowLemmas::row_facts))]
fn field_at<'a>(fields: &'a Vec<CompactString>, column: usize) -> &'a str
    ensures { text_of result.now ≡ field_at fields.now.items column }
{
    match fields.get(column) {
        Some(field) => field.as_str(),
        None => "",
    }
}

/// Counts the characters.
fn char_count(text: &str) -> usize
    ensures { result ≡ length (text_of text.now) }
{
    text.chars().count()
}

/// Formats a record as a line.
#[tactic(auto, using(crate::proofs::RowLemmas::row_facts))]
fn row(
    alloc: Global,
    fields: &Vec<CompactString>,
    widths: &[usize],
) -> Result<CompactString, ReserveError>
    ensures { IfOk result (λ line. line.text ≡ row_text widths.now fields.now.items) }
{
    let mut line = CompactString::default(alloc);
    line.push('|')?;
    for column in 0..widths.len() {
        push_cell(&mut line, field_at(fields, column), widths[column])?;
    }
    Ok(line)
}

/// Appends a cell, padded to `width` characters.
fn push_cell(line: &mut CompactString, field: &str, width: usize) -> Result<(), ReserveError>
    ensures { OnOk result (line.new.text ≡ line.old.text ++ cell width (text_of field.now)) }
{
    line.push(' ')?;
    line.push_str(field)?;
    let taken = char_count(field);
    for place in taken..width {
        line.push(' ')?;
    }
    line.push_str(" |")
}
