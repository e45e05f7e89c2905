//! A program that keeps texts: it sorts the words of the input, and counts those that are equal.

use crate::text::{Refused, Text};
use std::alloc::Global;
use std::io;
use std::io::Write;

/// The number of words that are written.
const MOST: usize = 10;

/// Writes the most frequent words with their counts; those as frequent in descending order.
pub fn count<W: Write>(alloc: Global, input: &str, writer: &mut W) -> io::Result<()> {
    let Ok(rows) = ranked(alloc, input) else {
        return Err(io::Error::from(io::ErrorKind::OutOfMemory));
    };
    for (count, word) in rows.iter().rev().take(MOST) {
        writer.write_all(word.as_bytes())?;
        writeln!(writer, " {count}")?;
    }
    Ok(())
}

/// Returns the distinct words with their counts, in ascending order.
fn ranked(alloc: Global, input: &str) -> Result<Vec<(u64, Text)>, Refused> {
    let mut words = words(alloc, input)?;
    words.sort_unstable();
    let mut rows = Vec::new(alloc);
    for word in words {
        count_word(&mut rows, word)?;
    }
    rows.sort_unstable();
    Ok(rows)
}

fn words(alloc: Global, input: &str) -> Result<Vec<Text>, Refused> {
    let mut words = Vec::new(alloc);
    for word in input.split_whitespace() {
        if words.push(Text::from_str(alloc, word)?).is_err() {
            return Err(Refused);
        }
    }
    Ok(words)
}

/// Counts a word, of which all that are equal come in a row.
fn count_word(rows: &mut Vec<(u64, Text)>, word: Text) -> Result<(), Refused> {
    let is_same = match rows.last() {
        Some((_, last)) => *last == word,
        None => false,
    };
    if is_same && let Some(row) = rows.last_mut() {
        row.0 = row.0.wrapping_add(1);
        return Ok(());
    }
    rows.push((1, word)).or(Err(Refused))
}
