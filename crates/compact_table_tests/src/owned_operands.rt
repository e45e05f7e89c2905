//! Operands that are owned, or a slice of something other than texts.

use crate::long_texts::{halves_at, number};
use crate::table::text_of;
use crate::values::{copied, source};
use compact_ext::wire::write_wire;
use compact_str::CompactString;
use serde_json::{Value, json};
use std::alloc::Global;
use std::boxed::BoxedStr;

/// Such an operand, made before memory is taken.
#[derive(Drop)]
pub enum Listed {
    Nothing,
    Bytes(Vec<u8>),
    Units(Vec<u16>),
    Characters(Vec<char>),
    Strings(Vec<String>),
    Boxes(Vec<BoxedStr>),
    Values(Vec<CompactString>),
    Json(Value),
}

impl Listed {
    pub fn bytes(&self) -> &[u8] {
        match self {
            Listed::Bytes(bytes) => bytes.as_slice(),
            _ => &[],
        }
    }

    pub fn units(&self) -> &[u16] {
        match self {
            Listed::Units(units) => units.as_slice(),
            _ => &[],
        }
    }

    pub fn characters(&self) -> &[char] {
        match self {
            Listed::Characters(characters) => characters.as_slice(),
            _ => &[],
        }
    }

    pub fn strings(&self) -> &[String] {
        match self {
            Listed::Strings(strings) => strings.as_slice(),
            _ => &[],
        }
    }

    pub fn boxes(&self) -> &[BoxedStr] {
        match self {
            Listed::Boxes(boxes) => boxes.as_slice(),
            _ => &[],
        }
    }

    pub fn values(&self) -> &[CompactString] {
        match self {
            Listed::Values(values) => values.as_slice(),
            _ => &[],
        }
    }

    /// Returns the first value.
    pub fn value(&self) -> Option<&CompactString> {
        self.values().first()
    }

    pub fn json(&self) -> Option<&Value> {
        match self {
            Listed::Json(json) => Some(json),
            _ => None,
        }
    }
}

/// Makes the operand of a call from the words after its name. Returns `None` if a word cannot be parsed.
pub fn make_listed(alloc: Global, name: &str, operands: &str) -> Option<Listed> {
    let word = text_of(operands.split_whitespace().next().unwrap_or(""));
    match name {
        "from_utf8"
        | "from_utf8_lossy"
        | "from_utf16le"
        | "from_utf16le_lossy"
        | "from_utf16be"
        | "from_utf16be_lossy" => bytes_of(alloc, word),
        "from_utf16" | "from_utf16_lossy" => units_of(alloc, word),
        "read_wire" => form_of(alloc, word),
        "from_json" => json_of(alloc, word),
        "collect:&char" | "extend:&char" => characters_of(alloc, word),
        "clone_from" => values_of(alloc, operands),
        _ => make_typed(alloc, name, operands),
    }
}

/// The same for calls that take texts of one type or another.
fn make_typed(alloc: Global, name: &str, operands: &str) -> Option<Listed> {
    match halves_at(name, ':') {
        Some((_, "String")) => strings_of(alloc, operands),
        Some((_, "BoxedStr")) => boxes_of(alloc, operands),
        Some((_, "CompactString")) => values_of(alloc, operands),
        _ => Some(Listed::Nothing),
    }
}

fn strings_of(alloc: Global, operands: &str) -> Option<Listed> {
    let mut strings = Vec::new(alloc);
    for word in operands.split_whitespace() {
        strings
            .push(String::from_str(alloc, text_of(word)).ok()?)
            .ok()?;
    }
    Some(Listed::Strings(strings))
}

fn boxes_of(alloc: Global, operands: &str) -> Option<Listed> {
    let mut boxes = Vec::new(alloc);
    for word in operands.split_whitespace() {
        boxes
            .push(BoxedStr::from_str(alloc, text_of(word)).ok()?)
            .ok()?;
    }
    Some(Listed::Boxes(boxes))
}

fn values_of(alloc: Global, operands: &str) -> Option<Listed> {
    let mut values = Vec::new(alloc);
    for word in operands.split_whitespace() {
        values.push(source(alloc, text_of(word))?).ok()?;
    }
    Some(Listed::Values(values))
}

/// Returns the bytes of a text, or one byte repeated.
fn bytes_of(alloc: Global, word: &str) -> Option<Listed> {
    let bytes = match repeated(word) {
        Some((number, count)) => Vec::from_elem(alloc, u8::try_from(number).ok()?, count),
        None => Vec::from_slice(alloc, word.as_bytes()),
    };
    Some(Listed::Bytes(bytes.ok()?))
}

/// Returns one unit repeated.
fn units_of(alloc: Global, word: &str) -> Option<Listed> {
    let (unit, count) = repeated(word)?;
    Some(Listed::Units(Vec::from_elem(alloc, unit, count).ok()?))
}

/// Parses number and count from a word such as `[0xFF;9]`.
fn repeated(word: &str) -> Option<(u16, usize)> {
    let inner = word.strip_prefix("[0x")?.strip_suffix("]")?;
    let (digits, count) = halves_at(inner, ';')?;
    let unit = u16::from_str_radix(digits, 16).ok()?;
    Some((unit, number(count)?))
}

/// Returns the wire form of a text.
fn form_of(alloc: Global, word: &str) -> Option<Listed> {
    let mut bytes = Vec::new(alloc);
    if is_written(&copied(alloc, word)?, &mut bytes) {
        Some(Listed::Bytes(bytes))
    } else {
        None
    }
}

fn is_written(value: &CompactString, bytes: &mut Vec<u8>) -> bool {
    write_wire(value, bytes).is_ok()
}

fn json_of(alloc: Global, word: &str) -> Option<Listed> {
    Some(Listed::Json(json!(in alloc; word).ok()?))
}

fn characters_of(alloc: Global, word: &str) -> Option<Listed> {
    let mut characters = Vec::new(alloc);
    for character in word.chars() {
        characters.push(character).ok()?;
    }
    Some(Listed::Characters(characters))
}
