//! The report of the most frequent words.
ghost use Rattle.std.specs.Prelude.{◌≡◌, [], map, take, IfErr, IfOk, IsOk};
ghost use Rattle.compact_str.specs.Order.{text_in};
ghost use Rattle.compact_words.specs.Reports.{entry_fields, IsReport, IsReportRefusal};

use compact_edit::{InternError, Interner};
use compact_ext::ToCompactString;
use compact_str::{CompactString, ReserveError};
use compact_uses::{Entry, aligned_rows, ranking, tokenize};
use std::alloc::Global;

/// Returns a line for each of the `most` most frequent words of a text, `| word | count |`, in aligned columns.
/// Equally frequent words are in order of first occurrence.
///
/// # Errors
///
/// `Reserve` if allocation fails, and `Full` if the text has more distinct tokens than there are numbers, and so at
/// least 2^32 - 1 characters. Never fails for the empty text.
pub fn frequent_words(
    alloc: Global,
    text: &CompactString,
    most: usize,
) -> Result<Vec<CompactString>, InternError>
    ensures report { IfOk result (λ lines. IsReport text.now.text most (map text_in lines.items)) }
    ensures err { IfErr result (IsReportRefusal text.now.text) }
    ensures empty { text.now.text ≡ [] → IsOk result }
{
    let mut names = Interner::new(alloc);
    let tokens = tokenize(alloc, &mut names, text)?;
    let Ok(ranks) = ranking(alloc, &tokens, names.len() as u32) else {
        return Err(InternError::Reserve(ReserveError));
    };
    let table = table_of(alloc, &names, &ranks, most)?;
    let lines = aligned_rows(alloc, &table)?;
    Ok(lines)
}

/// Returns the records of the first `most` entries. Never fails if there are none.
fn table_of(
    alloc: Global,
    names: &Interner,
    ranks: &[Entry],
    most: usize,
) -> Result<Vec<Vec<CompactString>>, ReserveError>
    ensures records { IfOk result (λ table. map (λ fields. map text_in fields.items) table.items
        ≡ map (entry_fields names.now) (take most ranks.now)) }
    ensures empty { take most ranks.now ≡ [] → IsOk result }
{
    let shown = &ranks[..usize::min(most, ranks.len())];
    let mut table = Vec::new(alloc);
    for entry in shown {
        let fields = record(alloc, names, *entry)?;
        if table.push(fields).is_err() {
            return Err(ReserveError);
        }
    }
    Ok(table)
}

/// Returns the record of an entry: the word and its count.
fn record(alloc: Global, names: &Interner, entry: Entry) -> Result<Vec<CompactString>, ReserveError>
    ensures { IfOk result (λ fields. map text_in fields.items ≡ entry_fields names.now entry) }
{
    let word = CompactString::new(alloc, names.name(entry.name).unwrap_or(""))?;
    let Ok(count) = entry.count.to_compact_string(alloc) else {
        return Err(ReserveError);
    };
    let mut fields = Vec::new(alloc);
    if fields.push(word).is_err() || fields.push(count).is_err() {
        return Err(ReserveError);
    }
    Ok(fields)
}
