//! The inputs: texts of a kind of characters and of a length in bytes, drawn by a generator that starts alike each time.

use crate::text::Text;
use compact_str::{CompactString, ReserveError};
use std::alloc::Global;

/// The kinds of characters: ASCII, characters of two, three or four bytes, or half ASCII and half others.
pub const LETTERS: u32 = 0;

pub const MIXED: u32 = 4;

/// An xorshift generator.
#[derive(Drop)]
pub struct Generator {
    state: u64,
}

impl Generator {
    /// Creates the generator, always with the same seed.
    pub fn new() -> Self {
        Generator {
            state: 0x9e37_79b9_7f4a_7c15,
        }
    }

    /// Returns the next number.
    pub fn next(&mut self) -> u64 {
        self.state ^= self.state << 13;
        self.state ^= self.state >> 7;
        self.state ^= self.state << 17;
        self.state
    }

    /// Draws a number below `limit`.
    pub fn below(&mut self, limit: u32) -> u32 {
        let high = self.next() >> 32;
        ((high * u64::from(limit)) >> 32) as u32
    }

    /// Draws a character of a kind.
    fn character(&mut self, kind: u32) -> char {
        match kind {
            LETTERS => nth(LETTERS, self.below(26)),
            MIXED => match self.below(8) {
                0..=3 => nth(LETTERS, self.below(26)),
                4 => 'ä',
                5 => 'Σ',
                6 => '€',
                _ => '𝄞',
            },
            _ => nth(kind, self.below(32)),
        }
    }

    /// Draws a text of `len` bytes; where no character of its kind fits any more it ends in a's.
    pub fn text(&mut self, alloc: Global, kind: u32, len: u32) -> Result<String, ReserveError> {
        let len = len as usize;
        let width = u32::min(kind, 3) as usize + 1;
        let mut text = String::with_capacity(alloc, len)?;
        // Each iteration appends a character, so this is enough.
        for _ in 0..len {
            if text.len().saturating_add(width) <= len {
                text.push(self.character(kind))?;
            } else if text.len() < len {
                text.push('a')?;
            }
        }
        Ok(text)
    }

    /// Draws texts of `least` bytes and less than `span` more; of mixed characters all have `least`.
    pub fn texts(
        &mut self,
        alloc: Global,
        kind: u32,
        count: usize,
        least: u32,
        span: u32,
    ) -> Made<String> {
        let mut texts = Vec::with_capacity(alloc, count)?;
        for _ in 0..count {
            let more = if kind == MIXED { 0 } else { self.below(span) };
            push_item(
                &mut texts,
                self.text(alloc, kind, least.wrapping_add(more))?,
            )?;
        }
        Ok(texts)
    }
}

/// Returns the character at an index of those of a kind; of the mixed ones it has two bytes.
pub fn nth(kind: u32, index: u32) -> char {
    let first = match kind {
        LETTERS => 0x61,
        1 => 0x430,
        2 => 0x4e00,
        3 => 0x1f600,
        _ => 0xe4,
    };
    char::from_u32(index.wrapping_add(first)).unwrap_or('a')
}

/// Returns the first 26 characters of a kind.
pub fn alphabet(alloc: Global, kind: u32) -> Made<char> {
    let mut characters = Vec::new(alloc);
    for index in 0..26 {
        push_item(&mut characters, nth(kind, index))?;
    }
    Ok(characters)
}

/// Inputs, or the error of making them.
pub type Made<T> = Result<Vec<T>, ReserveError>;

/// Appends an item.
pub fn push_item<T: Drop>(items: &mut Vec<T>, item: T) -> Result<(), ReserveError> {
    items.push(item).or(Err(ReserveError))
}

/// Draws ASCII texts.
pub fn words(alloc: Global, count: usize, least: u32, span: u32) -> Made<String> {
    Generator::new().texts(alloc, LETTERS, count, least, span)
}

/// Draws texts of a kind and a length: 64, or 16 of a thousand bytes or more.
pub fn alike(alloc: Global, kind: u32, len: u32) -> Made<String> {
    let count = if len < 1000 { 64 } else { 16 };
    Generator::new().texts(alloc, kind, count, len, 1)
}

/// Draws one text.
pub fn one(alloc: Global, kind: u32, len: u32) -> Made<String> {
    let mut texts = Vec::new(alloc);
    push_item(&mut texts, Generator::new().text(alloc, kind, len)?)?;
    Ok(texts)
}

/// Returns a value for each text: of itself, or at odd indices of the text `step` further on, 0 or 1.
///
/// The first text follows the last.
pub fn values<T: Text>(alloc: Global, texts: &[String], step: usize) -> Made<T> {
    let mut values = Vec::with_capacity(alloc, texts.len())?;
    for place in 0..texts.len() {
        let other = place.wrapping_add(place & step);
        if let Some(text) = texts.get(other).or(texts.first()) {
            push_item(&mut values, T::new(alloc, text.as_str())?)?;
        }
    }
    Ok(values)
}

/// A text, a range between characters in it, a text for that range, and a character.
#[derive(Drop)]
pub struct Cut {
    pub text: String,
    pub first: usize,
    pub last: usize,
    pub piece: String,
    pub character: char,
}

/// Cuts texts at two hundredths of their length. The piece is from the third to the fourth.
pub fn cuts(alloc: Global, kind: u32, texts: Made<String>, at: [usize; 4]) -> Made<Cut> {
    let mut cuts = Vec::new(alloc);
    for text in &texts? {
        push_item(&mut cuts, cut_one(alloc, kind, text.as_str(), at)?)?;
    }
    Ok(cuts)
}

fn cut_one(alloc: Global, kind: u32, text: &str, at: [usize; 4]) -> Result<Cut, ReserveError> {
    let [first, last, from, to] = at;
    let piece = text.get(boundary(text, from)..boundary(text, to));
    Ok(Cut {
        text: String::from_str(alloc, text)?,
        first: boundary(text, first),
        last: boundary(text, last),
        piece: String::from_str(alloc, piece.unwrap_or(""))?,
        character: nth(kind, 4),
    })
}

/// Returns the last boundary up to that many hundredths of a text.
fn boundary(text: &str, hundredths: usize) -> usize {
    let mut at = text.len().wrapping_mul(hundredths) / 100;
    for _ in 0..3 {
        if !text.is_char_boundary(at) {
            at = at.saturating_sub(1);
        }
    }
    at
}

/// The first texts as one group.
pub fn group(alloc: Global, texts: Made<String>, count: usize) -> Made<Vec<String>> {
    let mut texts = texts?;
    texts.truncate(count);
    let mut groups = Vec::new(alloc);
    push_item(&mut groups, texts)?;
    Ok(groups)
}

/// A text and a number below a million.
#[derive(Drop)]
pub struct Named {
    pub name: String,
    pub number: u64,
}

/// The texts, each with a number.
pub fn with_numbers(alloc: Global, texts: Made<String>) -> Made<Named> {
    let mut all = Vec::new(alloc);
    let mut numbers = numbers(alloc)?.into_iter();
    for text in texts? {
        let number = numbers.next().unwrap_or(0) % 1_000_000;
        push_item(&mut all, Named { name: text, number })?;
    }
    Ok(all)
}

/// The bytes of the texts.
pub fn byte_texts(alloc: Global, texts: Made<String>) -> Made<Vec<u8>> {
    let mut rows = Vec::new(alloc);
    for text in &texts? {
        push_item(&mut rows, Vec::from_slice(alloc, text.as_bytes())?)?;
    }
    Ok(rows)
}

/// The same, with FF at each 64th byte, from index `first` on.
pub fn faulty_byte_texts(alloc: Global, texts: Made<String>, first: usize) -> Made<Vec<u8>> {
    let mut rows = byte_texts(alloc, texts)?;
    for row in rows.iter_mut() {
        for byte in row.iter_mut().skip(first).step_by(64) {
            *byte = 0xFF;
        }
    }
    Ok(rows)
}

/// The UTF-16 units of the texts.
pub fn units(alloc: Global, texts: Made<String>) -> Made<Vec<u16>> {
    let mut rows = Vec::new(alloc);
    for text in &texts? {
        let mut row = Vec::new(alloc);
        for unit in text.as_str().encode_utf16() {
            push_item(&mut row, unit)?;
        }
        push_item(&mut rows, row)?;
    }
    Ok(rows)
}

/// The same as bytes, the lower one of each unit first, or the upper one.
pub fn unit_bytes(alloc: Global, texts: Made<String>, upper_first: bool) -> Made<Vec<u8>> {
    let mut rows = Vec::new(alloc);
    for units in &units(alloc, texts)? {
        let mut row = Vec::new(alloc);
        for unit in units {
            let [lower, upper] = unit.to_le_bytes();
            push_item(&mut row, if upper_first { upper } else { lower })?;
            push_item(&mut row, if upper_first { lower } else { upper })?;
        }
        push_item(&mut rows, row)?;
    }
    Ok(rows)
}

/// Numbers of 1 to 64 bits, each length about equally often.
pub fn shifted_numbers(alloc: Global) -> Made<u64> {
    let mut generator = Generator::new();
    let mut numbers = Vec::new(alloc);
    for _ in 0..4096 {
        let number = generator.next();
        push_item(&mut numbers, number >> (generator.below(64) % 64))?;
    }
    Ok(numbers)
}

/// Numbers of 1 to 20 digits, each length about equally often.
pub fn numbers(alloc: Global) -> Made<u64> {
    let mut generator = Generator::new();
    let mut numbers = Vec::new(alloc);
    for _ in 0..4096 {
        let least = 10u64.wrapping_pow(generator.below(20));
        let most = least.saturating_mul(9).min(u64::MAX.wrapping_sub(least));
        push_item(
            &mut numbers,
            least.wrapping_add(generator.next() % most.max(1)),
        )?;
    }
    Ok(numbers)
}

/// The length of the prose in bytes, but for a few more.
const PROSE: usize = 1_048_576;

/// Returns a text of 1 MiB: words of 1 to 12 letters, separated by white space, with some marks, numbers, and words
/// with ä.
pub fn prose(alloc: Global) -> Result<CompactString, ReserveError> {
    let mut generator = Generator::new();
    let words = generator.texts(alloc, LETTERS, 4096, 1, 12)?;
    let mut text = CompactString::with_capacity(alloc, PROSE + 32)?;
    for _ in 0..PROSE {
        if text.len() < PROSE {
            if let Some(word) = words.get(generator.below(4096) as usize) {
                text.push_str(word.as_str())?;
            }
            text.push_str(word_separator(&mut generator))?;
        }
    }
    Ok(text)
}

/// Draws what follows a word of the prose.
fn word_separator(generator: &mut Generator) -> &'static str {
    match generator.below(16) {
        0 => ", ",
        1 => ".\n",
        2 => " 1789 ",
        3 => "ä ",
        _ => " ",
    }
}
