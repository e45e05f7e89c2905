//! Loops that begin with a value, or read two values or a hasher.

use crate::hasher::Fnv;
use crate::inputs;
use crate::inputs::{Cut, Made, alphabet, values};
use crate::run::{mix, probe};
use crate::text::Text;
use compact_ext::wire::{Records, write_wire};
use compact_str::{CompactString, ReserveError};
use std::alloc::Global;
use std::cmp::Ordering;
use std::hash::{Hash, Hasher};

/// Appends texts to a value until it has 1,000,000 bytes, then begins a new one.
pub fn built(alloc: Global, n: u64, texts: Made<String>) -> Result<u64, ReserveError> {
    let mut value = CompactString::default(alloc);
    let mut sum = 0;
    for text in texts?.iter().cycle().take(n as usize) {
        if value.len() >= 1_000_000 {
            sum = mix(sum, probe(&value));
            value = CompactString::default(alloc);
        }
        value.push_str(text.as_str())?;
    }
    Ok(mix(sum, probe(&value)))
}

/// Inserts a character in the middle of a value and removes it.
pub fn inserted_removed<T: Text>(
    alloc: Global,
    n: u64,
    cuts: Made<Cut>,
    kind: u32,
) -> Result<u64, ReserveError> {
    let characters = alphabet(alloc, kind)?;
    let mut sum = 0;
    for cut in &cuts? {
        let mut value = T::new(alloc, cut.text.as_str())?;
        for character in characters.iter().cycle().take(n as usize) {
            value.insert(cut.first, *character)?;
            sum = mix(sum, u64::from(value.remove(cut.first)?));
        }
        sum = mix(sum, probe(&value));
    }
    Ok(sum)
}

/// Replaces 4 letters of 200 by 8, and these by 4.
pub fn replaced(alloc: Global, n: u64, texts: Made<String>) -> Result<u64, ReserveError> {
    let mut sum = 0;
    for text in &texts? {
        let mut value = CompactString::new(alloc, text.as_str())?;
        for _ in 0..n {
            value.replace(100, 104, "abcdefgh")?;
            value.replace(100, 108, "wxyz")?;
            sum = mix(sum, probe(&value));
        }
    }
    Ok(sum)
}

/// Makes the letters of a value uppercase, and lowercase again.
pub fn changed<T: Text>(alloc: Global, n: u64, texts: Made<String>) -> Result<u64, ReserveError> {
    let mut sum = 0;
    for text in texts?.iter().take(1) {
        let mut value = T::new(alloc, text.as_str())?;
        for _ in 0..n {
            value.uppercase()?;
            sum = mix(sum, probe(&value));
            value.lowercase()?;
            sum = mix(sum, probe(&value));
        }
    }
    Ok(sum)
}

/// Compares each value with another, which is equal for every second of them.
pub fn equal<T: Text>(alloc: Global, n: u64, texts: Made<String>) -> Result<u64, ReserveError> {
    let texts = texts?;
    let values: Vec<T> = inputs::values(alloc, &texts, 0)?;
    let others: Vec<T> = inputs::values(alloc, &texts, 1)?;
    let mut sum = 0;
    let mut others = others.iter().cycle();
    for value in values.iter().cycle().take(n as usize) {
        if let Some(other) = others.next() {
            sum = mix(sum, u64::from(value == other));
        }
    }
    Ok(sum)
}

/// Orders each value and the one after it.
pub fn ordered<T: Text>(alloc: Global, n: u64, texts: Made<String>) -> Result<u64, ReserveError> {
    let values: Vec<T> = values(alloc, &texts?, 0)?;
    let mut sum = 0;
    let mut following = values.iter().cycle();
    following.next();
    for value in values.iter().cycle().take(n as usize) {
        if let Some(next) = following.next() {
            let order = match value.cmp(next) {
                Ordering::Less => 0,
                Ordering::Equal => 1,
                Ordering::Greater => 2,
            };
            sum = mix(sum, order);
        }
    }
    Ok(sum)
}

pub fn hashed<T: Text>(alloc: Global, n: u64, texts: Made<String>) -> Result<u64, ReserveError> {
    let values: Vec<T> = values(alloc, &texts?, 0)?;
    let mut sum = 0;
    for value in values.iter().cycle().take(n as usize) {
        let mut hasher = Fnv::new();
        value.hash(&mut hasher);
        sum = mix(sum, hasher.finish());
    }
    Ok(sum)
}

/// Converts a value into a `String` and back.
pub fn converted(alloc: Global, n: u64, texts: Made<String>) -> Result<u64, ReserveError> {
    let mut sum = 0;
    for text in texts?.into_iter().take(1) {
        let mut value = CompactString::from(text);
        for _ in 0..n {
            value = through_string(value)?;
            sum = mix(sum, probe(&value));
        }
    }
    Ok(sum)
}

#[inline]
fn through_string(value: CompactString) -> Result<CompactString, ReserveError> {
    match value.into_string() {
        Ok(text) => Ok(CompactString::from(text)),
        Err(refused) => Err(refused.error),
    }
}

/// Writes values into a vector in the wire form, and reads them back, or only the one or the other.
pub fn wired(alloc: Global, n: u64, texts: Made<String>, writes: bool, reads: bool) -> Option<u64> {
    let values = values(alloc, &texts.ok()?, 0).ok()?;
    let mut bytes = Vec::new(alloc);
    write_all(&values, &mut bytes)?;
    let mut sum = 0;
    for _ in 0..n {
        if writes {
            write_all(&values, &mut bytes)?;
        }
        if reads {
            sum = read_all(alloc, bytes.as_slice(), sum)?;
        }
    }
    Some(sum)
}

#[inline]
fn write_all(values: &[CompactString], bytes: &mut Vec<u8>) -> Option<()> {
    bytes.clear();
    for value in values {
        write_wire(value, bytes).ok()?;
    }
    Some(())
}

#[inline]
fn read_all(alloc: Global, bytes: &[u8], sum: u64) -> Option<u64> {
    let mut sum = sum;
    for value in Records::new(alloc, bytes) {
        sum = mix(sum, probe(&value.ok()?));
    }
    Some(sum)
}
