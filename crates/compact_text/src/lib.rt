//! Texts and their bytes: parts of a `&str`, moves and edits of byte slices, appends to a `Vec<u8>` within its
//! capacity, and arrays of 24 bytes as three words.
//!
//! This crate knows no string type; `compact_repr` builds its buffers on it.
#![tactic(auto, using(crate::proofs::TextFacts::text_facts))]

pub mod slices;
pub mod str_parts;
pub mod vec;
pub mod words;
