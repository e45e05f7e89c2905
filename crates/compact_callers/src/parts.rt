//! Loops over the parts of a line, and how many parts pass a test.
#![tactic(auto, using(compact_str::proofs::PartFacts::split_loop_facts))]

ghost use Rattle.std.specs.Prelude.{◌≡◌, IfOk, map, filter, length, not, ◌==◌, bytes_eq, count_by, sum_by};
ghost use Rattle.std.specs.List.{slice_split, list_any};
ghost use Rattle.compact_str.specs.Text.{utf8};

use compact_str::{CompactString, ReserveError};
use std::alloc::Global;

/// Returns the fields of a line, between the commas.
pub fn fields_of(alloc: Global, line: &str) -> Result<Vec<CompactString>, ReserveError>
    ensures { IfOk result (λ fields. map (λ field. utf8 field.text) fields.items
        ≡ slice_split (λ byte. byte == 44) line.now) }
{
    let mut fields = Vec::new(alloc);
    for field in line.split(',') {
        fields.push(CompactString::new(alloc, field)?)?;
    }
    Ok(fields)
}

/// Returns the words of a line, between spaces.
pub fn words_of(alloc: Global, line: &str) -> Result<Vec<CompactString>, ReserveError>
    ensures { IfOk result (λ words. map (λ word. utf8 word.text) words.items
        ≡ filter (λ word. not (length word == 0)) (slice_split (λ byte. byte == 32) line.now)) }
{
    let mut words = Vec::new(alloc);
    for word in line.split(' ') {
        if word.is_empty() {
            continue;
        }
        words.push(CompactString::new(alloc, word)?)?;
    }
    Ok(words)
}

/// Counts the fields that are not empty.
pub fn filled_fields(line: &str) -> usize
    ensures { result ≡ count_by (λ field. not (length field == 0))
        (slice_split (λ byte. byte == 44) line.now) }
{
    let mut count = 0;
    for field in line.split(',') {
        if !field.is_empty() {
            count += 1;
        }
    }
    count
}

/// Counts the words of a line, between spaces.
#[tactic(auto, using(compact_str::proofs::PartFacts::split_facts))]
pub fn word_count(line: &str) -> usize
    ensures { result ≡ count_by (λ word. not (length word == 0))
        (slice_split (λ byte. byte == 32) line.now) }
{
    line.split(' ').filter(|word| !word.is_empty()).count()
}

/// Returns how many bytes the fields have.
pub fn bytes_in_fields(line: &str) -> usize
    ensures { result ≡ sum_by (λ field. length field) (slice_split (λ byte. byte == 44) line.now) }
{
    let mut total = 0;
    for field in line.split(',') {
        total += field.len();
    }
    total
}

/// Returns `true` if a field is `name`.
pub fn has_field(line: &str, name: &str) -> bool
    ensures { result ≡ list_any (λ field. bytes_eq field name.now)
        (slice_split (λ byte. byte == 44) line.now) }
{
    for field in line.split(',') {
        if field == name {
            return true;
        }
    }
    false
}
