//! The types that are timed, each call in one form for both.

use compact_ext::format_compact;
use compact_str::{CompactString, ReserveError};
use std::alloc::Global;
use std::hash::Hash;
use std::ops::Bound;

/// A string type: this library's, or the `String` of the standard library.
///
/// A call at a position tests that it is a boundary, as Rust's calls do inside.
pub trait Text: Clone + Eq + Ord + Hash {
    fn new(alloc: Global, text: &str) -> Result<Self, ReserveError>;

    fn collect(alloc: Global, text: &str) -> Result<Self, ReserveError>;

    fn formatted(alloc: Global, name: &str, number: u64) -> Result<Self, ReserveError>;

    fn decode(alloc: Global, bytes: &[u8]) -> Result<Self, ReserveError>;

    fn decode_lossy(alloc: Global, bytes: &[u8]) -> Result<Self, ReserveError>;

    fn decode_units(alloc: Global, units: &[u16]) -> Result<Self, ReserveError>;

    fn decode_units_lossy(alloc: Global, units: &[u16]) -> Result<Self, ReserveError>;

    fn as_bytes(&self) -> &[u8];

    fn assign(&mut self, source: &Self) -> Result<(), ReserveError>;

    fn clear(&mut self);

    fn truncate(&mut self, at: usize);

    fn push_str(&mut self, text: &str) -> Result<(), ReserveError>;

    fn push(&mut self, character: char) -> Result<(), ReserveError>;

    fn pop(&mut self) -> Option<char>;

    fn push_all(&mut self, text: &str) -> Result<(), ReserveError>;

    fn write_line(&mut self, name: &str, number: u64) -> Result<(), ReserveError>;

    fn insert(&mut self, at: usize, character: char) -> Result<(), ReserveError>;

    fn insert_str(&mut self, at: usize, text: &str) -> Result<(), ReserveError>;

    fn remove(&mut self, at: usize) -> Result<char, ReserveError>;

    fn split_off(&mut self, at: usize) -> Result<Self, ReserveError>;

    fn replace(&mut self, first: usize, last: usize, text: &str) -> Result<(), ReserveError>;

    fn sum_drained(&mut self, first: usize, last: usize) -> Result<u64, ReserveError>;

    fn drop_drained(&mut self, first: usize, last: usize) -> Result<(), ReserveError>;

    fn retain(&mut self, unwanted: char) -> Result<(), ReserveError>;

    fn uppercase(&mut self) -> Result<(), ReserveError>;

    fn lowercase(&mut self) -> Result<(), ReserveError>;
}

impl Text for CompactString {
    #[inline(always)]
    fn new(alloc: Global, text: &str) -> Result<Self, ReserveError> {
        CompactString::new(alloc, text)
    }

    fn collect(alloc: Global, text: &str) -> Result<Self, ReserveError> {
        CompactString::from_chars(alloc, text.chars())
    }

    fn formatted(alloc: Global, name: &str, number: u64) -> Result<Self, ReserveError> {
        format_compact!(in alloc; "{}-{}", name, number).or(Err(ReserveError))
    }

    fn decode(alloc: Global, bytes: &[u8]) -> Result<Self, ReserveError> {
        CompactString::from_utf8(alloc, bytes).or(Err(ReserveError))
    }

    fn decode_lossy(alloc: Global, bytes: &[u8]) -> Result<Self, ReserveError> {
        CompactString::from_utf8_lossy(alloc, bytes)
    }

    fn decode_units(alloc: Global, units: &[u16]) -> Result<Self, ReserveError> {
        CompactString::from_utf16(alloc, units).or(Err(ReserveError))
    }

    fn decode_units_lossy(alloc: Global, units: &[u16]) -> Result<Self, ReserveError> {
        CompactString::from_utf16_lossy(alloc, units)
    }

    fn as_bytes(&self) -> &[u8] {
        self.as_bytes()
    }

    fn assign(&mut self, source: &Self) -> Result<(), ReserveError> {
        self.clone_from(source)
    }

    fn clear(&mut self) {
        self.clear();
    }

    fn truncate(&mut self, at: usize) {
        if self.is_char_boundary(at) {
            self.truncate(at);
        }
    }

    fn push_str(&mut self, text: &str) -> Result<(), ReserveError> {
        self.push_str(text)
    }

    fn push(&mut self, character: char) -> Result<(), ReserveError> {
        self.push(character)
    }

    fn pop(&mut self) -> Option<char> {
        self.pop()
    }

    fn push_all(&mut self, text: &str) -> Result<(), ReserveError> {
        self.extend_chars(text.chars())
    }

    fn write_line(&mut self, name: &str, number: u64) -> Result<(), ReserveError> {
        write!(self, "{}: {}\n", name, number)
    }

    fn insert(&mut self, at: usize, character: char) -> Result<(), ReserveError> {
        if self.is_char_boundary(at) {
            self.insert(at, character)?;
        }
        Ok(())
    }

    fn insert_str(&mut self, at: usize, text: &str) -> Result<(), ReserveError> {
        if self.is_char_boundary(at) {
            self.insert_str(at, text)?;
        }
        Ok(())
    }

    #[inline(always)]
    fn remove(&mut self, at: usize) -> Result<char, ReserveError> {
        if at < self.len() && self.is_char_boundary(at) {
            self.remove(at)
        } else {
            Ok('a')
        }
    }

    fn split_off(&mut self, at: usize) -> Result<Self, ReserveError> {
        if self.is_char_boundary(at) {
            self.split_off(at)
        } else {
            Err(ReserveError)
        }
    }

    #[inline(always)]
    fn replace(&mut self, first: usize, last: usize, text: &str) -> Result<(), ReserveError> {
        let (start, end) = (Bound::Included(first), Bound::Excluded(last));
        if self.check_range(start, end).is_some() {
            self.replace_range(start, end, text)?;
        }
        Ok(())
    }

    fn sum_drained(&mut self, first: usize, last: usize) -> Result<u64, ReserveError> {
        let (start, end) = (Bound::Included(first), Bound::Excluded(last));
        let mut sum: u64 = 0;
        if self.check_range(start, end).is_some() {
            for character in self.drain(start, end)? {
                sum = sum.wrapping_add(u64::from(character));
            }
        }
        Ok(sum)
    }

    fn drop_drained(&mut self, first: usize, last: usize) -> Result<(), ReserveError> {
        let (start, end) = (Bound::Included(first), Bound::Excluded(last));
        if self.check_range(start, end).is_some() {
            drop(self.drain(start, end)?);
        }
        Ok(())
    }

    fn retain(&mut self, unwanted: char) -> Result<(), ReserveError> {
        self.retain(|character| character != unwanted)
    }

    fn uppercase(&mut self) -> Result<(), ReserveError> {
        self.make_ascii_uppercase()
    }

    fn lowercase(&mut self) -> Result<(), ReserveError> {
        self.make_ascii_lowercase()
    }
}

impl Text for String {
    #[inline(always)]
    fn new(alloc: Global, text: &str) -> Result<Self, ReserveError> {
        Ok(String::from_str(alloc, text)?)
    }

    fn collect(alloc: Global, text: &str) -> Result<Self, ReserveError> {
        Ok(String::from_iter(alloc, text.chars())?)
    }

    fn formatted(alloc: Global, name: &str, number: u64) -> Result<Self, ReserveError> {
        format!(in alloc; "{}-{}", name, number).or(Err(ReserveError))
    }

    fn decode(alloc: Global, bytes: &[u8]) -> Result<Self, ReserveError> {
        String::from_utf8(Vec::from_slice(alloc, bytes)?).or(Err(ReserveError))
    }

    fn decode_lossy(alloc: Global, bytes: &[u8]) -> Result<Self, ReserveError> {
        Ok(String::from_utf8_lossy(alloc, bytes)?)
    }

    fn decode_units(alloc: Global, units: &[u16]) -> Result<Self, ReserveError> {
        String::from_utf16(alloc, units)?.or(Err(ReserveError))
    }

    fn decode_units_lossy(alloc: Global, units: &[u16]) -> Result<Self, ReserveError> {
        Ok(String::from_utf16_lossy(alloc, units)?)
    }

    fn as_bytes(&self) -> &[u8] {
        self.as_bytes()
    }

    fn assign(&mut self, source: &Self) -> Result<(), ReserveError> {
        Ok(self.clone_from(source)?)
    }

    fn clear(&mut self) {
        self.clear();
    }

    fn truncate(&mut self, at: usize) {
        if self.is_char_boundary(at) {
            self.truncate(at);
        }
    }

    fn push_str(&mut self, text: &str) -> Result<(), ReserveError> {
        Ok(self.push_str(text)?)
    }

    fn push(&mut self, character: char) -> Result<(), ReserveError> {
        Ok(self.push(character)?)
    }

    fn pop(&mut self) -> Option<char> {
        self.pop()
    }

    fn push_all(&mut self, text: &str) -> Result<(), ReserveError> {
        Ok(self.extend(text.chars())?)
    }

    fn write_line(&mut self, name: &str, number: u64) -> Result<(), ReserveError> {
        write!(self, "{}: {}\n", name, number).or(Err(ReserveError))
    }

    fn insert(&mut self, at: usize, character: char) -> Result<(), ReserveError> {
        if self.is_char_boundary(at) {
            self.insert(at, character)?;
        }
        Ok(())
    }

    fn insert_str(&mut self, at: usize, text: &str) -> Result<(), ReserveError> {
        if self.is_char_boundary(at) {
            self.insert_str(at, text)?;
        }
        Ok(())
    }

    #[inline(always)]
    fn remove(&mut self, at: usize) -> Result<char, ReserveError> {
        if at < self.len() && self.is_char_boundary(at) {
            Ok(self.remove(at))
        } else {
            Ok('a')
        }
    }

    fn split_off(&mut self, at: usize) -> Result<Self, ReserveError> {
        if self.is_char_boundary(at) {
            Ok(self.split_off(at)?)
        } else {
            Err(ReserveError)
        }
    }

    #[inline(always)]
    fn replace(&mut self, first: usize, last: usize, text: &str) -> Result<(), ReserveError> {
        if first <= last && self.is_char_boundary(first) && self.is_char_boundary(last) {
            self.replace_range(first..last, text)?;
        }
        Ok(())
    }

    fn sum_drained(&mut self, first: usize, last: usize) -> Result<u64, ReserveError> {
        let mut sum: u64 = 0;
        if first <= last && self.is_char_boundary(first) && self.is_char_boundary(last) {
            for character in self.drain(first..last)? {
                sum = sum.wrapping_add(u64::from(character));
            }
        }
        Ok(sum)
    }

    fn drop_drained(&mut self, first: usize, last: usize) -> Result<(), ReserveError> {
        if first <= last && self.is_char_boundary(first) && self.is_char_boundary(last) {
            drop(self.drain(first..last)?);
        }
        Ok(())
    }

    fn retain(&mut self, unwanted: char) -> Result<(), ReserveError> {
        self.retain(|character| character != unwanted);
        Ok(())
    }

    fn uppercase(&mut self) -> Result<(), ReserveError> {
        self.make_ascii_uppercase();
        Ok(())
    }

    fn lowercase(&mut self) -> Result<(), ReserveError> {
        self.make_ascii_lowercase();
        Ok(())
    }
}
