//! Checks of a value, by functions without clauses.
//!
//! All but `hash_of` return a `bool`: comparing two records takes longer to prove.

use crate::values::place_of;
use compact_str::{CompactString, Policy, PolicyString};
use std::hash::{DefaultHasher, Hash, Hasher};

/// Returns `true` if a value is inline with this text.
pub fn is_inline<P: Policy>(value: &PolicyString<P>, text: &str) -> bool {
    is_at(value, "inline", 24, text)
}

/// Returns `true` if a value is on the heap with this capacity, in bytes, and this text.
pub fn is_heap<P: Policy>(value: &PolicyString<P>, capacity: usize, text: &str) -> bool {
    is_at(value, "heap", capacity, text)
}

/// Returns `true` if a value is static with this text; its capacity is its length.
pub fn is_static<P: Policy>(value: &PolicyString<P>, text: &str) -> bool {
    is_at(value, "static", text.len(), text)
}

/// Returns `true` if a value has this place, named as by `place_of`, capacity in bytes, and text.
pub fn is_at<P: Policy>(value: &PolicyString<P>, place: &str, capacity: usize, text: &str) -> bool {
    place_of(value) == place && value.capacity() == capacity && has_text(value, text)
}

/// Returns `true` if each accessor returns this text.
fn has_text<P: Policy>(value: &PolicyString<P>, text: &str) -> bool {
    value.as_str() == text
        && value.as_bytes() == text.as_bytes()
        && value.len() == text.len()
        && value.is_empty() == text.is_empty()
}

/// Returns `true` if values have these texts, in order.
pub fn are_texts(values: &[CompactString], texts: &[&str]) -> bool {
    for (place, value) in values.iter().enumerate() {
        if texts.get(place) != Some(&value.as_str()) {
            return false;
        }
    }
    values.len() == texts.len()
}

/// Returns `true` if a value owns this text: inline up to 24 bytes, else on the heap.
pub fn is_fitted(value: &CompactString, text: &str) -> bool {
    value.as_str() == text
        && value.len() == text.len()
        && value.as_static_str().is_none()
        && value.is_heap_allocated() == (text.len() > 24)
        && value.capacity() >= text.len()
}

/// Returns the `DefaultHasher` hash of a value.
pub fn hash_of(value: &CompactString) -> u64 {
    let mut hasher = DefaultHasher::new();
    value.hash(&mut hasher);
    hasher.finish()
}
