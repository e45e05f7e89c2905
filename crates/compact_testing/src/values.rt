//! Sample values, and the place of a value.
//!
//! No function here has a clause, so the proof of a test knows nothing of the values it looks at. A test whose subject
//! is not how its value was made makes it here.

use compact_str::{CompactString, Policy, PolicyString, ReserveError};
use std::alloc::{AllocError, Global};

/// Returns `count` times `a`, at most 80. A function, so that a proof need not carry each one.
pub fn ascii_text(count: usize) -> &'static str {
    const LETTERS: &str =
        "aaaaaaaaaaaaaaaaaaaaaaaaaaaaaaaaaaaaaaaaaaaaaaaaaaaaaaaaaaaaaaaaaaaaaaaaaaaaaaaa";
    LETTERS.get(..count).unwrap_or("")
}

/// Creates a static value of `count` times `a`.
pub fn lasting(alloc: Global, count: usize) -> CompactString {
    CompactString::const_new(alloc, ascii_text(count))
}

/// Creates an inline value from a literal of at most 24 bytes. Never allocates.
pub fn short(alloc: Global, text: &'static str) -> CompactString {
    CompactString::const_new(alloc, text)
}

/// Creates values from literals.
///
/// # Errors
///
/// `AllocError` if the list cannot be allocated.
pub fn values_of(alloc: Global, texts: &[&'static str]) -> Result<Vec<CompactString>, AllocError> {
    let mut values = Vec::new(alloc);
    for text in texts {
        values.push(CompactString::const_new(alloc, text))?;
    }
    Ok(values)
}

/// Creates a value with this text.
///
/// # Errors
///
/// [`ReserveError`] as from `new`.
pub fn value_of(alloc: Global, text: &str) -> Result<CompactString, ReserveError> {
    CompactString::new(alloc, text)
}

/// Creates an empty value with this capacity, in bytes.
///
/// # Errors
///
/// [`ReserveError`] as from `with_capacity`.
pub fn with_room(alloc: Global, capacity: usize) -> Result<CompactString, ReserveError> {
    CompactString::with_capacity(alloc, capacity)
}

/// Appends a text.
///
/// # Errors
///
/// [`ReserveError`] as from `push_str`.
pub fn append<P: Policy>(value: &mut PolicyString<P>, text: &str) -> Result<(), ReserveError> {
    value.push_str(text)
}

/// Creates a string with just this capacity, in bytes.
///
/// # Errors
///
/// `AllocError` if allocation fails.
pub fn string_with_room(alloc: Global, capacity: usize, text: &str) -> Result<String, AllocError> {
    let mut buffer = String::with_capacity(alloc, capacity)?;
    buffer.push_str(text)?;
    Ok(buffer)
}

/// Returns the name of a value's place.
pub fn place_of<P: Policy>(value: &PolicyString<P>) -> &'static str {
    if value.is_heap_allocated() {
        "heap"
    } else if value.as_static_str().is_some() {
        "static"
    } else {
        "inline"
    }
}
