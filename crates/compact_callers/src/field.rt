//! Values in JSON records: derived `Serialize` and `Deserialize` take one as a field and in an `Option`. The program
//! `compact_visits` also has them in a `Vec`.
use compact_str::CompactString;
use serde::{Deserialize, Serialize};
use serde_json::Error;
use std::alloc::Global;

/// A person.
#[derive(Debug, Drop, PartialEq, Serialize, Deserialize)]
#[serde(rename_all = "camelCase")]
pub struct Person {
    pub first_name: CompactString,
    pub note: Option<CompactString>,
}

/// Parses a person from JSON.
pub fn read_person(alloc: Global, text: &str) -> Result<Person, Error> {
    serde_json::from_str(alloc, text)
}

/// Writes a person as JSON.
pub fn write_person(alloc: Global, person: &Person) -> Result<String, Error> {
    serde_json::to_string(alloc, person)
}

/// Parses a JSON string.
pub fn read_name(alloc: Global, text: &str) -> Result<CompactString, Error> {
    serde_json::from_str(alloc, text)
}
