//! Parsing a line of the table.

use crate::long_texts::{halves_at, number};
use crate::memory::Allocation;
use crate::owned_operands::{Listed, make_listed};
use crate::values::{Seen, Start, fitted, fixed, heap, inline};
use compact_edit::Reply;
use compact_str::Standard;
use std::alloc::Global;
use std::mem::size_of;

/// The result of a successful call, which also determines how it is tried.
#[derive(Clone, Copy)]
pub enum Expected<'a> {
    /// A call on a value that returns nothing.
    Done,
    /// A call on a value that returns a character.
    Char(Option<char>),
    /// A call on a value that returns a text.
    Text(Seen<'a>),
    /// A call that makes a value.
    Made,
    /// A call that converts a value, whose result has this text.
    Left(&'a str),
    /// A call that appends items; those before a failure are kept.
    Kept,
    /// A list of edits, of which this many fail.
    Refused(usize),
    /// A list of edits that fails as a whole.
    Unrun,
    /// A call on a value at an invalid position.
    BadPosition,
    /// A call that fails whatever is granted.
    TooLarge,
}

/// One line of the table.
#[derive(Drop)]
pub struct Case<'a> {
    pub line: &'a str,
    pub start: Option<Start<'a>>,
    /// The call as written.
    pub call: &'a str,
    pub name: &'a str,
    /// The words after the name.
    pub operands: Vec<&'a str>,
    pub listed: Listed,
    pub allocations: Vec<Allocation>,
    pub expected: Expected<'a>,
    /// The value after the call; for `Kept`, after none of the allocations is granted, after one, and so on.
    pub states: Vec<Seen<'a>>,
}

impl<'a> Case<'a> {
    /// Parses the lists.
    fn read(&mut self, fields: Fields<'a>) -> bool {
        let (_, operands) = first_word(fields.call);
        read_operands(&mut self.operands, operands)
            && read_allocations(&mut self.allocations, fields.allocations)
            && read_states(&mut self.states, fields.after)
    }

    /// Returns a word after the name, or the empty text if there are fewer.
    pub fn word(&self, index: usize) -> &'a str {
        self.operands.get(index).copied().unwrap_or("")
    }
}

/// The fields of a line.
#[derive(Clone, Copy)]
struct Fields<'a> {
    start: &'a str,
    call: &'a str,
    allocations: &'a str,
    expected: &'a str,
    after: &'a str,
}

/// Parses a line, of which `text` is the expansion. Returns `None` if it cannot be parsed.
pub fn read_case<'a>(alloc: Global, line: &'a str, text: &'a str) -> Option<Case<'a>> {
    let fields = fields_of(text)?;
    let mut case = begin_case(alloc, line, fields)?;
    if case.read(fields) { Some(case) } else { None }
}

fn fields_of(text: &str) -> Option<Fields<'_>> {
    let (start, rest) = halves_at(text, '|')?;
    let (call, rest) = halves_at(rest, '|')?;
    let (allocations, rest) = halves_at(rest, '|')?;
    let (expected, after) = halves_at(rest, '|')?;
    Some(Fields {
        start: start.trim(),
        call: call.trim(),
        allocations: allocations.trim(),
        expected: expected.trim(),
        after: after.trim(),
    })
}

/// Makes a case whose lists are not parsed yet.
fn begin_case<'a>(alloc: Global, line: &'a str, fields: Fields<'a>) -> Option<Case<'a>> {
    let start = start_of(fields.start)?;
    let expected = expected_of(fields.expected)?;
    let (name, operands) = first_word(fields.call);
    let listed = make_listed(alloc, name, operands)?;
    Some(Case {
        line,
        start,
        call: fields.call,
        name,
        operands: Vec::new(alloc),
        listed,
        allocations: Vec::new(alloc),
        expected,
        states: Vec::new(alloc),
    })
}

/// Parses the value to start from; `-` means no value.
fn start_of(field: &str) -> Option<Option<Start<'_>>> {
    if field == "-" {
        return Some(None);
    }
    match Start::named(field) {
        Some(start) => Some(Some(start)),
        None => Some(Some(Start::Seen(seen_of(field)?))),
    }
}

/// Splits after the first word.
pub fn first_word(text: &str) -> (&str, &str) {
    match halves_at(text, ' ') {
        Some((word, rest)) => (word, rest),
        None => (text, ""),
    }
}

/// Parses operands.
fn read_operands<'a>(operands: &mut Vec<&'a str>, field: &'a str) -> bool {
    let mut is_read = true;
    for word in field.split_whitespace() {
        is_read &= operands.push(text_of(word)).is_ok();
    }
    is_read
}

/// Returns the text of a word; `_` is the empty one.
pub fn text_of(word: &str) -> &str {
    if word == "_" { "" } else { word }
}

/// Parses the allocations.
fn read_allocations(allocations: &mut Vec<Allocation>, field: &str) -> bool {
    if field.is_empty() {
        return true;
    }
    for part in field.split(',') {
        let Some(allocation) = allocation_of(part.trim()) else {
            return false;
        };
        if allocations.push(allocation).is_err() {
            return false;
        }
    }
    true
}

/// Parses an allocation. `replies` is what an empty list of replies allocates for two: room for four.
fn allocation_of(part: &str) -> Option<Allocation> {
    if part == "replies" {
        return Some(Allocation::New(size_of::<Reply<Standard>>().saturating_mul(4)));
    }
    let (kind, size) = halves_at(part, ' ')?;
    let size = number(size)?;
    match kind {
        "new" => Some(Allocation::New(size)),
        "more" => Some(Allocation::More(size)),
        _ => None,
    }
}

/// Parses a result.
fn expected_of(field: &str) -> Option<Expected<'_>> {
    match field {
        "done" => Some(Expected::Done),
        "no char" => Some(Expected::Char(None)),
        "made" => Some(Expected::Made),
        "kept" => Some(Expected::Kept),
        "unrun" => Some(Expected::Unrun),
        "bad position" => Some(Expected::BadPosition),
        "too large" => Some(Expected::TooLarge),
        _ => long_expected_of(field),
    }
}

/// Parses a result with a value.
fn long_expected_of(field: &str) -> Option<Expected<'_>> {
    let (kind, rest) = halves_at(field, ' ')?;
    match kind {
        "char" => Some(Expected::Char(Some(character(rest)?))),
        "text" => Some(Expected::Text(seen_of(rest)?)),
        "left" => Some(Expected::Left(text_of(rest))),
        "refused" => Some(Expected::Refused(number(rest)?)),
        _ => None,
    }
}

/// Parses the values after a call, one more allocation granted after each `/`. `-` means no value.
fn read_states<'a>(states: &mut Vec<Seen<'a>>, field: &'a str) -> bool {
    if field == "-" {
        return true;
    }
    for part in field.split('/') {
        let Some(seen) = seen_of(part.trim()) else {
            return false;
        };
        if states.push(seen).is_err() {
            return false;
        }
    }
    true
}

/// Parses place, capacity and text of a value.
fn seen_of(field: &str) -> Option<Seen<'_>> {
    let (place, rest) = halves_at(field, ' ')?;
    match place {
        "inline" => Some(inline(text_of(rest))),
        "static" => Some(fixed(text_of(rest))),
        "heap" => {
            let (capacity, text) = halves_at(rest, ' ')?;
            let text = text_of(text);
            if capacity == "*" {
                return Some(fitted(text));
            }
            Some(heap(number(capacity)?, text))
        }
        _ => None,
    }
}

/// Returns the only character of a word.
pub fn character(word: &str) -> Option<char> {
    let mut characters = word.chars();
    let first = characters.next()?;
    if characters.next().is_some() {
        return None;
    }
    Some(first)
}
