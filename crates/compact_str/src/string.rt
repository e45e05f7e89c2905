//! The string type.

mod accessors;
mod as_ref;
mod ascii_case;
mod clone;
mod compare;
mod constructors;
mod default;
mod deref;
pub mod drain;
mod equivalent;
mod fmt;
mod from;
mod hash;
mod indexmap_equivalent;
pub mod insert_remove;
mod into;
pub mod json;
mod push_pop;
mod ranges;
mod repeat;
mod replace;
mod reserve;
mod retain;
mod serialize;
mod zeroize;

use compact_repr::{Policy, Repr, Standard};
use std::marker::Model;

/// A string of at most 24 bytes inline, a longer one on the heap, or a string literal by reference. Heap buffers grow
/// by the policy `P`.
///
/// Contracts see a list of characters, a place (inline, heap or static) and a capacity in bytes: 24 if inline, the
/// length if static, and at least the length on the heap. Inline and heap strings are owned: edits change them in
/// place.
///
/// Method docs give the numbers of [`CompactString`]: a minimum of 32 bytes and growth by half. Other policies differ.
pub struct PolicyString<P: Policy> {
    repr: Repr<P>,
}

/// The string type: heap buffers of at least 32 bytes that grow by half.
///
/// # Examples
///
/// ```
/// let mut name = CompactString::new(alloc, "naïve")?;
/// name.push_str(" café")?;
/// assert_eq!(rt; name.as_str(), "naïve café");
/// assert!(rt; !name.is_heap_allocated());
/// ```
pub type CompactString = PolicyString<Standard>;

impl<P: Policy> Model for PolicyString<P> {
    ghost use Rattle.compact_str.specs.Words.{PlacedText};

    ghost Value = { PlacedText };

    ghost view = { λ s. s.repr };
}

/// A manual `Drop`: a derived one is expanded in the proof of every function that owns a value.
impl<P: Policy> Drop for PolicyString<P> {
    fn drop(self) {
        let PolicyString { repr } = self;
        drop(repr);
    }
}
