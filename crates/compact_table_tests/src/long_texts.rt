//! The notation of long texts: `UNIT*COUNT` repeats a unit, `a..D` is a range of ASCII letters, and `+` joins parts.

use crate::table::character;
use std::alloc::{AllocError, Global};

/// The greatest count of a unit.
const MAX_COUNT: usize = 2000;

/// The ASCII letters, lowercase first.
const LETTERS: &str = "abcdefghijklmnopqrstuvwxyzABCDEFGHIJKLMNOPQRSTUVWXYZ";

/// Expands the texts of a table, line by line.
pub fn expanded(alloc: Global, table: &str) -> Result<String, AllocError> {
    let mut text = String::new(alloc);
    for line in table.lines() {
        expand_line(&mut text, line)?;
        text.push('\n')?;
    }
    Ok(text)
}

/// Appends a line with its words expanded. Skips comments.
fn expand_line(text: &mut String, line: &str) -> Result<(), AllocError> {
    if line.starts_with('#') {
        return Ok(());
    }
    for word in line.split(' ') {
        expand_word(text, word)?;
        text.push(' ')?;
    }
    Ok(())
}

/// Appends a word with its parts expanded.
fn expand_word(text: &mut String, word: &str) -> Result<(), AllocError> {
    for part in word.split('+') {
        let (unit, count) = unit_and_count(part);
        for _ in 0..count {
            text.push_str(ascii_of(unit).unwrap_or(unit))?;
        }
    }
    Ok(())
}

/// Splits at the first sign. Like `number`, it has no clause, so a proof knows nothing of the text.
pub fn halves_at(text: &str, sign: char) -> Option<(&str, &str)> {
    text.split_once(sign)
}

/// Parses a number.
pub fn number(word: &str) -> Option<usize> {
    word.parse::<usize>().ok()
}

/// Returns the unit of a part and its count, 1 if it has none.
fn unit_and_count(part: &str) -> (&str, usize) {
    match counted(part) {
        Some((unit, count)) => (unit, count.min(MAX_COUNT)),
        None => (part, 1),
    }
}

/// Splits a part that has a count.
fn counted(part: &str) -> Option<(&str, usize)> {
    let (unit, count) = halves_at(part, '*')?;
    Some((unit, number(count)?))
}

/// Returns the range of `LETTERS` that `unit` names, if it is two of them with `..` between.
fn ascii_of(unit: &str) -> Option<&'static str> {
    let (first, last) = unit.split_once("..")?;
    let (from, to) = (place_of(first)?, place_of(last)?);
    LETTERS.get(from..to.saturating_add(1))
}

/// Returns the index of a letter in `LETTERS`.
fn place_of(letter: &str) -> Option<usize> {
    LETTERS.find(character(letter)?)
}
