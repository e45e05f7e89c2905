//! Functions of tokenizers, record readers and reports.
ghost use Rattle.std.specs.Prelude.{◌≡◌, ◌+◌, ◌≤◌, ◌++◌, length, IfOk, OnOk, OnErr, IsOk, codes};
ghost use Rattle.compact_str.specs.Text.{text_of, size};

use compact_str::{CompactString, ReserveError};
use std::alloc::Global;

/// Makes a keyword of a grammar; too short to allocate.
pub fn keyword(alloc: Global, word: &str) -> Result<CompactString, ReserveError>
    ensures text { IfOk result (λ v. v.text ≡ text_of word.now) }
    ensures succeeds { length word.now ≤ 24 → IsOk result }
{
    CompactString::new(alloc, word)
}

/// Appends a field of a record.
pub fn append_field(line: &mut CompactString, field: &str) -> Result<(), ReserveError>
    ensures text { OnOk result (line.new.text ≡ line.old.text ++ text_of field.now) }
    ensures unchanged { OnErr result (line.new ≡ line.old) }
    ensures succeeds { size line.old.text + length field.now ≤ 24 → IsOk result }
{
    line.push_str(field)
}

/// Builds a line of a report: a name, a colon, a space and a value.
pub fn label(alloc: Global, name: &str, value: &str) -> Result<CompactString, ReserveError>
    ensures text { IfOk result
        (λ line. line.text ≡ text_of name.now ++ text_of (codes ": ") ++ text_of value.now) }
{
    let mut line = CompactString::new(alloc, name)?;
    line.push_str(": ")?;
    line.push_str(value)?;
    Ok(line)
}

/// Writes a record of two fields into the buffer of an earlier one.
pub fn record_line(line: &mut CompactString, first: &str, second: &str) -> Result<(), ReserveError>
    ensures text { OnOk result (line.new.text ≡ text_of first.now ++ text_of second.now) }
{
    line.clear();
    line.push_str(first)?;
    line.push_str(second)
}
