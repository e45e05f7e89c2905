//! Collecting, joining and extending.
#![tactic(auto, using(compact_str::proofs::ForCallers::caller_facts))]

ghost use Rattle.std.specs.Prelude.{◌≡◌, ◌+◌, ◌≤◌, ◌++◌, [], map, flat_map, fold, filter, ◌==◌, not, IfOk, OnOk, OnErr, codes, string_bytes};
ghost use Rattle.std.specs.Char.{to_ascii_uppercase};
ghost use Rattle.std.specs.String.{string_capacity};
ghost use Rattle.compact_str.specs.Text.{text_of, size};
ghost use Rattle.compact_str.specs.Order.{text_in};
ghost use Rattle.compact_str.specs.Collect.{join};
ghost use Rattle.compact_str.specs.Room.{IsPlacedBySize};

use compact_str::{CompactString, CompactStringExt, ReserveError, append_all};
use std::alloc::{AllocError, Global};

/// Joins the parts of a path.
pub fn path(alloc: Global, parts: &[&str]) -> Result<CompactString, ReserveError>
    ensures text { IfOk result
        (λ v. v.text ≡ join (codes "/") (λ part. text_of part.now) parts.now) }
    ensures place { IfOk result IsPlacedBySize }
{
    parts.iter().copied().join_compact(alloc, "/")
}

/// Joins parts by any separator.
pub fn joined_parts(
    alloc: Global,
    parts: Vec<&str>,
    separator: &str,
) -> Result<CompactString, ReserveError>
    ensures { IfOk result
        (λ v. v.text ≡ join (text_of separator.now)
        (λ part. text_of part.now) parts.entry.items) }
{
    parts.into_iter().join_compact(alloc, separator)
}

/// Lists names in one line, by reference.
pub fn list_of_names(
    alloc: Global,
    names: &[CompactString],
    separator: &str,
) -> Result<CompactString, ReserveError>
    ensures { IfOk result (λ v. v.text ≡ join (text_of separator.now) text_in names.now) }
{
    names.iter().join_compact(alloc, separator)
}

/// Concatenates names, collected with `map`; the length is the sum of theirs.
pub fn names_by_map(alloc: Global, names: &[CompactString]) -> Result<CompactString, ReserveError>
    ensures { IfOk result (λ v. size v.text ≡ fold (λ n name. n + size name.text) 0 names.now) }
{
    CompactString::from_texts(alloc, names.iter().map(|name| name.as_str()))
}

/// Returns an uppercase copy of a line, collected with `map`.
pub fn in_uppercase(alloc: Global, line: &str) -> Result<CompactString, ReserveError>
    ensures { IfOk result (λ v. v.text ≡ map to_ascii_uppercase (text_of line.now)) }
{
    CompactString::from_chars(alloc, line.chars().map(|c| c.to_ascii_uppercase()))
}

/// Concatenates names, by reference.
pub fn names_end_to_end(
    alloc: Global,
    names: &[CompactString],
) -> Result<CompactString, ReserveError>
    ensures { IfOk result (λ v. v.text ≡ flat_map text_in names.now) }
{
    CompactString::from_texts(alloc, names.iter())
}

/// Concatenates the words of a line, by reference.
pub fn words_end_to_end(alloc: Global, words: &[&str]) -> Result<CompactString, ReserveError>
    ensures { IfOk result (λ v. v.text ≡ flat_map (λ word. text_of word.now) words.now) }
{
    words.iter().concat_compact(alloc)
}

/// Same as `words_end_to_end`, with the library's `collect`.
pub fn gathered_words(alloc: Global, words: &[&str]) -> Result<CompactString, AllocError>
    ensures { IfOk result (λ v. v.text ≡ flat_map (λ word. text_of word.now) words.now) }
{
    words.iter().copied().collect(alloc)
}

/// Copies a line character by character.
pub fn character_by_character(alloc: Global, line: &str) -> Result<CompactString, ReserveError>
    ensures { IfOk result (λ v. v.text ≡ text_of line.now) }
{
    CompactString::from_chars(alloc, line.chars())
}

/// Copies a line without its spaces.
pub fn without_spaces(alloc: Global, line: &str) -> Result<CompactString, ReserveError>
    ensures { IfOk result (λ v. v.text ≡ filter (λ c. not (c == 32)) (text_of line.now)) }
{
    CompactString::from_chars(alloc, line.chars().filter(|c| *c != ' '))
}

/// Appends the fields of a record to a line.
pub fn append_fields(line: &mut CompactString, fields: &[&str]) -> Result<(), ReserveError>
    ensures { OnOk result
        (line.new.text ≡ line.old.text ++ flat_map (λ field. text_of field.now) fields.now) }
{
    line.extend_texts(fields.iter().copied())
}

/// Appends all fields, or leaves the text unchanged.
pub fn append_all_or_none(line: &mut CompactString, fields: &[&str]) -> Result<(), ReserveError>
    ensures text { OnOk result
        (line.new.text ≡ line.old.text ++ flat_map (λ field. text_of field.now) fields.now) }
    ensures unchanged { OnErr result (line.new.text ≡ line.old.text) }
{
    let len = line.len();
    match line.extend_texts(fields.iter().copied()) {
        Ok(()) => Ok(()),
        Err(error) => {
            line.truncate(len);
            Err(error)
        }
    }
}

/// Appends the characters of a name.
pub fn append_characters(line: &mut CompactString, name: &str) -> Result<(), ReserveError>
    ensures { OnOk result (line.new.text ≡ line.old.text ++ text_of name.now) }
{
    line.extend_chars(name.chars())
}

/// Appends values to a `String`.
pub fn append_values(line: &mut String, values: Vec<CompactString>) -> Result<(), ReserveError>
    ensures { OnOk result
        (text_of (string_bytes line.new)
        ≡ text_of (string_bytes line.old) ++ flat_map text_in values.items) }
{
    append_all(line, values)
}

/// Overwrites a `String` with values. If that fails the line is empty. Never shrinks the capacity, so what fitted
/// before still fits.
pub fn rewrite_line(line: &mut String, values: Vec<CompactString>) -> Result<(), ReserveError>
    ensures text { OnOk result (text_of (string_bytes line.new) ≡ flat_map text_in values.items) }
    ensures room { string_capacity line.old ≤ string_capacity line.new }
    ensures empty { OnErr result (string_bytes line.new ≡ []) }
{
    line.clear();
    match append_all(line, values) {
        Ok(()) => Ok(()),
        Err(error) => {
            line.clear();
            Err(error)
        }
    }
}
