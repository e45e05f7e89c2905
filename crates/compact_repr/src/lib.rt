//! The representation of a compact string: a text with a place and a capacity.
//!
//! Up to 24 bytes are stored in the value itself, a longer text in a buffer on the heap, and a string literal by
//! reference. This crate creates, reads, grows and edits such a representation. Contracts see the `PlacedText` of
//! `specs/Value.antt`.
#![tactic(auto, using(compact_text::proofs::TextFacts::text_facts))]

mod growth;
mod heap;
mod inline;
mod repr;
mod static_str;

pub use growth::{MAX_CAPACITY, Policy, Standard, standard_grows_by_half};
pub use inline::INLINE_CAPACITY;
pub use repr::Repr;
