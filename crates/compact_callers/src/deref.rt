//! `&str` methods on a value, and functions that take a `&str`, as written for a `String`.
#![tactic(auto, using(compact_str::proofs::ForCallers::caller_facts))]

ghost use Rattle.std.specs.Prelude.{◌≡◌, ◌+◌, ◌^◌, ◌≤◌, ◌++◌, length, IfOk, OnOk, OnErr, IsOk, MatchOption, codes};
ghost use Rattle.compact_str.specs.Text.{text_of, size};

use compact_str::{CompactString, ReserveError};
use std::alloc::{AllocError, Global};
use std::convert::AsStr;

/// Keeps the key of a `key=value` field and returns its value. Returns `None`, with the field unchanged, if it has no
/// `=`.
pub fn split_at_equals(field: &mut CompactString) -> Result<Option<CompactString>, ReserveError>
    ensures parts { IfOk result (λ value. MatchOption value (field.new ≡ field.old)
        (λ v. field.old.text ≡ field.new.text ++ codes "=" ++ v.text)) }
    ensures unchanged { OnErr result (field.new ≡ field.old) }
{
    let Some(at) = field.find('=') else {
        return Ok(None);
    };
    let value = field.split_off(at + 1)?;
    field.truncate(at);
    Ok(Some(value))
}

/// Returns the length in bytes.
fn bytes_in(text: &str) -> usize
    ensures { result ≡ length text.now }
{
    text.len()
}

/// Returns the total length of two values, each passed as a `&str`.
pub fn bytes_of_both(first: &CompactString, second: &CompactString) -> Option<usize>
    ensures { MatchOption result (2 ^ 64 ≤ size first.now.text + size second.now.text)
        (λ n. n ≡ size first.now.text + size second.now.text) }
{
    bytes_in(first).checked_add(bytes_in(second))
}

/// Appends a value to another.
pub fn append_other(line: &mut CompactString, other: &CompactString) -> Result<(), ReserveError>
    ensures text { OnOk result (line.new.text ≡ line.old.text ++ other.now.text) }
    ensures unchanged { OnErr result (line.new ≡ line.old) }
    ensures succeeds { size line.old.text + size other.now.text ≤ 24 → IsOk result }
{
    line.push_str(other)
}

/// Parses the number between a line's spaces.
pub fn number_in(line: &CompactString) -> Option<u32> {
    line.trim().parse::<u32>().ok()
}

/// Returns the length in bytes of the longest word.
pub fn longest_word(line: &CompactString) -> usize {
    line.split_whitespace()
        .map(|word| word.len())
        .max()
        .unwrap_or(0)
}

/// Counts the lines that are not all spaces.
pub fn filled_lines(text: &CompactString) -> usize {
    text.lines()
        .filter(|line| !line.trim_start().is_empty())
        .count()
}

/// Counts the characters.
pub fn characters_of(line: &CompactString) -> usize
    ensures { result ≡ length line.now.text }
{
    line.chars().count()
}

/// Returns the name, or `"none"`.
pub fn shown_name(name: &Option<CompactString>) -> &str
    ensures { MatchOption name.now (result.now ≡ codes "none") (λ v. text_of result.now ≡ v.text) }
{
    name.as_deref().unwrap_or("none")
}

/// Returns the length in bytes of anything that has a text.
pub fn weight<T: AsStr>(text: &T) -> usize
    ensures { result ≡ length (T.text text.now) }
{
    text.as_str().len()
}

/// Calls `weight` on a value.
pub fn weight_of(value: &CompactString) -> usize
    ensures { result ≡ size value.now.text }
{
    weight(value)
}

/// Joins texts with commas into a `String`.
pub fn with_commas(alloc: Global, row: &[CompactString]) -> Result<String, AllocError> {
    row.join(alloc, ",")
}
