//! Making values from texts, bytes, items, or by formatting.

use crate::decoding::decode;
use crate::long_texts::number;
use crate::table::Case;
use crate::try_line::Made;
use compact_ext::wire::{WireError, read_wire};
use compact_str::{AsText, CompactString, CompactStringExt, FromJsonError, ReserveError};
use serde_json::Value;
use std::alloc::{AllocError, Global};
use std::borrow::CowStr;

/// Makes the value of a case, anew each time: a copy, or else by another call.
pub fn make(case: &Case<'_>, alloc: Global) -> Made {
    let (name, word) = (case.name, case.word(0));
    match name {
        "new" => value_or_refused(CompactString::new(alloc, word)),
        "try_new" => value_or_refused(CompactString::try_new(alloc, word)),
        "from_str" => value_or_refused(CompactString::from_str(alloc, word)),
        "from_cow" => value_or_refused(CompactString::from_cow(alloc, CowStr::Borrowed(word))),
        "with_capacity" | "try_with_capacity" => make_room(name, number(word), alloc),
        _ => gather(case, alloc),
    }
}

fn make_room(name: &str, capacity: Option<usize>, alloc: Global) -> Made {
    let Some(capacity) = capacity else {
        return Made::Unknown;
    };
    if name == "with_capacity" {
        value_or_refused(CompactString::with_capacity(alloc, capacity))
    } else {
        value_or_refused(CompactString::try_with_capacity(alloc, capacity))
    }
}

/// Makes a value by collecting, concatenating or joining, or else by another call.
fn gather(case: &Case<'_>, alloc: Global) -> Made {
    let (word, texts) = (case.word(0), case.operands.as_slice());
    match case.name {
        "from_chars" => value_or_refused(CompactString::from_chars(alloc, word.chars())),
        "from_texts" => of_texts(texts, alloc),
        "from_texts:CowStr" => {
            value_or_refused(CompactString::from_texts(alloc, Some(CowStr::Borrowed(word))))
        }
        "concat_compact" => value_or_refused(texts.iter().concat_compact(alloc)),
        "join_compact" => join(texts, alloc),
        "collect:char" => of_trait(word.chars().collect(alloc)),
        "collect:&str" => of_trait(texts.iter().collect(alloc)),
        "collect:CowStr" => of_trait(
            texts
                .iter()
                .map(|text| CowStr::Borrowed(*text))
                .collect(alloc),
        ),
        _ => decode(case, alloc),
    }
}

/// Joins texts; the first is the separator.
fn join(texts: &[&str], alloc: Global) -> Made {
    match texts.split_first() {
        Some((separator, texts)) => {
            value_or_refused(texts.iter().join_compact(alloc, *separator))
        }
        None => Made::Unknown,
    }
}

/// Makes a value from an operand made before.
pub fn make_of_listed(case: &Case<'_>, alloc: Global) -> Made {
    let listed = &case.listed;
    match case.name {
        "from_texts:String" => of_texts(listed.strings(), alloc),
        "from_texts:BoxedStr" => of_texts(listed.boxes(), alloc),
        "from_texts:CompactString" => of_texts(listed.values(), alloc),
        "collect:&char" => of_trait(listed.characters().iter().collect(alloc)),
        "collect:String" => of_trait(listed.strings().iter().collect(alloc)),
        "collect:BoxedStr" => of_trait(listed.boxes().iter().collect(alloc)),
        "collect:CompactString" => of_trait(listed.values().iter().collect(alloc)),
        "read_wire" => read_form(listed.bytes(), alloc),
        _ => make_of_json(case, alloc),
    }
}

fn make_of_json(case: &Case<'_>, alloc: Global) -> Made {
    match case.listed.json() {
        Some(json) if json.as_str() == Some(case.word(0)) => read_json(json, alloc),
        _ => Made::Unknown,
    }
}

/// Concatenates texts.
fn of_texts<T: AsText>(texts: &[T], alloc: Global) -> Made {
    value_or_refused(CompactString::from_texts(alloc, texts.iter()))
}

pub fn read_json(json: &Value, alloc: Global) -> Made {
    match CompactString::from_json(alloc, json) {
        Ok(value) => Made::Value(value),
        Err(FromJsonError::Reserve(_)) => Made::Refused,
        Err(FromJsonError::NotAString) => Made::Fault,
    }
}

fn read_form(bytes: &[u8], alloc: Global) -> Made {
    let mut rest = bytes;
    match read_wire(alloc, &mut rest) {
        Ok(value) => Made::Value(value),
        Err(WireError::Reserve(_)) => Made::Refused,
        Err(_) => Made::Fault,
    }
}

/// Wraps the result of a call that fails only if allocation does.
pub fn value_or_refused(outcome: Result<CompactString, ReserveError>) -> Made {
    match outcome {
        Ok(value) => Made::Value(value),
        Err(_) => Made::Refused,
    }
}

/// The same for `FromIterator`.
fn of_trait(outcome: Result<CompactString, AllocError>) -> Made {
    match outcome {
        Ok(value) => Made::Value(value),
        Err(_) => Made::Refused,
    }
}
