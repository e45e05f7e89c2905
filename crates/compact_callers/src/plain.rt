//! Edits as in editors, reports and record readers.
#![tactic(auto, using(compact_str::proofs::ForCallers::caller_facts))]

ghost use Rattle.std.specs.Prelude.{◌≡◌, ◌+◌, ◌≤◌, [], ◌∷◌, ◌++◌, length, IfOk, OnOk, OnErr, IsOk, MatchOption, codes, decimal};
ghost use Rattle.compact_str.specs.Text.{text_of, size};
ghost use Rattle.compact_str.specs.Cut.{IsBoundary, replaced_text};

use compact_str::{CompactString, ReserveError};

/// Appends a name, an arrow and a value.
pub fn append_report(line: &mut CompactString, name: &str, value: &str) -> Result<(), ReserveError>
    ensures { OnOk result
        (line.new.text ≡ line.old.text ++ text_of name.now ++ codes " → " ++ text_of value.now) }
{
    write!(line, "{name} → {value}")
}

/// Appends a name, a colon and a number.
pub fn append_count(line: &mut CompactString, name: &str, count: u64) -> Result<(), ReserveError>
    ensures { OnOk result
        (line.new.text ≡ line.old.text ++ text_of name.now ++ codes ": " ++ decimal count) }
{
    write!(line, "{name}: {count}")
}

/// Appends two fields with a comma between them. Reserves first, so that it appends all or nothing.
pub fn append_record(
    line: &mut CompactString,
    first: &str,
    second: &str,
) -> Result<(), ReserveError>
    ensures text { OnOk result
        (line.new.text ≡ line.old.text ++ text_of first.now ++ 44 ∷ text_of second.now) }
    ensures unchanged { OnErr result (line.new ≡ line.old) }
{
    line.reserve(first.len() + 1 + second.len())?;
    line.push_str(first)?;
    line.push(',')?;
    line.push_str(second)
}

/// Appends two fields, and removes the first if the second fails.
pub fn append_pair(line: &mut CompactString, first: &str, second: &str) -> Result<(), ReserveError>
    ensures text { OnOk result
        (line.new.text ≡ line.old.text ++ text_of first.now ++ text_of second.now) }
    ensures rolled_back { OnErr result (line.new.text ≡ line.old.text) }
{
    let len = line.len();
    line.push_str(first)?;
    if let Err(error) = line.push_str(second) {
        line.truncate(len);
        return Err(error);
    }
    Ok(())
}

/// Types two characters at a cursor, which must be a boundary, and returns the new cursor.
pub fn type_two(
    line: &mut CompactString,
    cursor: usize,
    first: char,
    second: char,
) -> Result<usize, ReserveError>
    requires { IsBoundary line.old.text cursor }
    ensures text { IfOk result
        (λ _. line.new.text ≡ replaced_text line.old.text cursor cursor (first ∷ second ∷ [])) }
    ensures cursor { IfOk result (λ behind. IsBoundary line.new.text behind) }
{
    line.insert(cursor, first)?;
    let next = cursor + first.len_utf8();
    line.insert(next, second)?;
    Ok(next + second.len_utf8())
}

/// Splits a line at a boundary and joins the parts again.
pub fn split_and_join(line: &mut CompactString, index: usize) -> Result<(), ReserveError>
    requires { IsBoundary line.old.text index }
    ensures { OnOk result (line.new.text ≡ line.old.text) }
{
    let tail = line.split_off(index)?;
    line.push_str(tail.as_str())
}

/// Copies a name and appends a suffix. Does not allocate if both have at most 24 bytes together.
pub fn with_suffix(name: &CompactString, suffix: &str) -> Result<CompactString, ReserveError>
    ensures text { IfOk result (λ v. v.text ≡ name.now.text ++ text_of suffix.now) }
    ensures succeeds { size name.now.text + length suffix.now ≤ 24 → IsOk result }
{
    let mut copy = name.clone()?;
    copy.push_str(suffix)?;
    Ok(copy)
}

/// Keeps the key of a `key=value` field and returns its value. Returns `None`, with the field unchanged, if it has no
/// `=`.
pub fn split_field(field: &mut CompactString) -> Result<Option<CompactString>, ReserveError>
    ensures parts { IfOk result
        (λ value. MatchOption value (field.new ≡ field.old)
        (λ v. field.old.text ≡ field.new.text ++ text_of (codes "=") ++ v.text)) }
    ensures unchanged { OnErr result (field.new ≡ field.old) }
{
    let Some(at) = field.as_str().find('=') else {
        return Ok(None);
    };
    let value = field.split_off(at + 1)?;
    field.truncate(at);
    Ok(Some(value))
}

/// Appends a value with its `Display`.
pub fn append_value(line: &mut CompactString, value: &CompactString) -> Result<(), ReserveError>
    ensures { OnOk result (line.new.text ≡ line.old.text ++ value.now.text) }
{
    let shown = value.as_str();
    write!(line, "{shown}")
}
