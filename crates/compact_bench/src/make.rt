//! Making values of texts, and appending.

use crate::inputs::{Cut, Named};
use crate::run::Call;
use crate::text::Text;
use compact_ext::ToCompactString;
use compact_str::{CompactString, CompactStringExt, ReserveError};
use std::alloc::Global;

pub struct New;

impl<T: Text> Call<T, String> for New {
    fn run(alloc: Global, value: &mut T, text: &String) -> Result<u64, ReserveError> {
        *value = T::new(alloc, text.as_str())?;
        Ok(0)
    }
}

pub struct Copied;

impl<T: Text> Call<T, T> for Copied {
    fn run(_: Global, value: &mut T, source: &T) -> Result<u64, ReserveError> {
        *value = source.clone()?;
        Ok(0)
    }
}

pub struct Assign;

impl<T: Text> Call<T, T> for Assign {
    fn run(_: Global, value: &mut T, source: &T) -> Result<u64, ReserveError> {
        value.assign(source)?;
        Ok(0)
    }
}

/// Appends a text four times to an empty value.
pub struct Grow;

impl<T: Text> Call<T, String> for Grow {
    fn run(alloc: Global, value: &mut T, text: &String) -> Result<u64, ReserveError> {
        let mut grown = T::new(alloc, "")?;
        for _ in 0..4 {
            grown.push_str(text.as_str())?;
        }
        *value = grown;
        Ok(0)
    }
}

/// Appends a text to the cleared value, as the others below do first.
pub struct Refill;

impl<T: Text> Call<T, String> for Refill {
    fn run(_: Global, value: &mut T, text: &String) -> Result<u64, ReserveError> {
        value.clear();
        value.push_str(text.as_str())?;
        Ok(0)
    }
}

/// Appends each character.
pub struct Push;

impl<T: Text> Call<T, String> for Push {
    fn run(_: Global, value: &mut T, text: &String) -> Result<u64, ReserveError> {
        value.clear();
        for character in text.as_str().chars() {
            value.push(character)?;
        }
        Ok(0)
    }
}

/// Pops each character.
pub struct Pop;

impl<T: Text> Call<T, String> for Pop {
    fn run(_: Global, value: &mut T, text: &String) -> Result<u64, ReserveError> {
        value.push_str(text.as_str())?;
        let mut sum: u64 = 0;
        for _ in 0..text.len() {
            match value.pop() {
                Some(character) => sum = sum.wrapping_add(u64::from(character)),
                None => break,
            }
        }
        Ok(sum)
    }
}

pub struct Extend;

impl<T: Text> Call<T, String> for Extend {
    fn run(_: Global, value: &mut T, text: &String) -> Result<u64, ReserveError> {
        value.clear();
        value.push_all(text.as_str())?;
        Ok(0)
    }
}

pub struct ExtendTexts;

impl Call<CompactString, Vec<String>> for ExtendTexts {
    fn run(_: Global, value: &mut CompactString, texts: &Vec<String>) -> Result<u64, ReserveError> {
        value.clear();
        value.extend_texts(texts.iter())?;
        Ok(0)
    }
}

pub struct Truncate;

impl<T: Text> Call<T, Cut> for Truncate {
    fn run(_: Global, value: &mut T, cut: &Cut) -> Result<u64, ReserveError> {
        value.clear();
        value.push_str(cut.text.as_str())?;
        value.truncate(cut.first);
        Ok(0)
    }
}

/// Writes a line of a text and a number.
pub struct WriteLine;

impl<T: Text> Call<T, String> for WriteLine {
    fn run(_: Global, value: &mut T, text: &String) -> Result<u64, ReserveError> {
        value.clear();
        value.write_line(text.as_str(), text.len() as u64)?;
        Ok(0)
    }
}

/// Collects characters.
pub struct Collect;

impl<T: Text> Call<T, String> for Collect {
    fn run(alloc: Global, value: &mut T, text: &String) -> Result<u64, ReserveError> {
        *value = T::collect(alloc, text.as_str())?;
        Ok(0)
    }
}

pub struct Join;

impl Call<CompactString, Vec<String>> for Join {
    fn run(
        alloc: Global,
        value: &mut CompactString,
        texts: &Vec<String>,
    ) -> Result<u64, ReserveError> {
        *value = texts.iter().join_compact(alloc, ", ")?;
        Ok(0)
    }
}

pub struct Concat;

impl Call<CompactString, Vec<String>> for Concat {
    fn run(
        alloc: Global,
        value: &mut CompactString,
        texts: &Vec<String>,
    ) -> Result<u64, ReserveError> {
        *value = texts.iter().concat_compact(alloc)?;
        Ok(0)
    }
}

pub struct Repeat;

impl Call<CompactString, CompactString> for Repeat {
    fn run(
        _: Global,
        value: &mut CompactString,
        source: &CompactString,
    ) -> Result<u64, ReserveError> {
        *value = source.repeat(8)?;
        Ok(0)
    }
}

pub struct Lower;

impl Call<CompactString, CompactString> for Lower {
    fn run(
        _: Global,
        value: &mut CompactString,
        source: &CompactString,
    ) -> Result<u64, ReserveError> {
        *value = source.to_ascii_lowercase()?;
        Ok(0)
    }
}

pub struct Format;

impl<T: Text> Call<T, Named> for Format {
    fn run(alloc: Global, value: &mut T, named: &Named) -> Result<u64, ReserveError> {
        *value = T::formatted(alloc, named.name.as_str(), named.number)?;
        Ok(0)
    }
}

pub struct ShowText;

impl Call<CompactString, String> for ShowText {
    fn run(alloc: Global, value: &mut CompactString, text: &String) -> Result<u64, ReserveError> {
        match text.to_compact_string(alloc) {
            Ok(shown) => *value = shown,
            Err(_) => return Err(ReserveError),
        }
        Ok(0)
    }
}

pub struct ShowNumber;

impl Call<CompactString, u64> for ShowNumber {
    fn run(alloc: Global, value: &mut CompactString, number: &u64) -> Result<u64, ReserveError> {
        match number.to_compact_string(alloc) {
            Ok(shown) => *value = shown,
            Err(_) => return Err(ReserveError),
        }
        Ok(0)
    }
}
