//! A replacement for `String`. Up to 24 bytes are stored inline, longer text on the heap, and a `&'static str`
//! by reference.
//!
//! Short strings never allocate. Methods that may allocate return a `Result`. On `Err` text, place and capacity are
//! unchanged, but extending keeps the items before the one that failed. A contract sees a string as its characters,
//! place and capacity: the `PlacedText` of `specs/`.
#![tactic(auto, using(compact_text::proofs::TextFacts::text_facts))]

mod builder;
mod decode;
mod error;
mod error_conversions;
mod iter;
mod laws;
mod refused;
mod stack_buffer;
mod string;

pub use compact_repr::{INLINE_CAPACITY, MAX_CAPACITY, Policy, Standard, standard_grows_by_half};
pub use decode::error::{FromUtf8Error, FromUtf16Error, Utf16Error};
pub use error::ReserveError;
pub use iter::{AsText, CompactStringExt, append_all};
pub use laws::{
    append_undoes_split, byte_order_is_text_order, clone_is_equal, decoding_undoes_encoding,
    hash_is_that_of_the_str, packed_bytes_stand_for_one_text, removal_undoes_insertion,
    sorted_row_is_searchable, truncation_undoes_append,
};
pub use refused::Refused;
pub use string::drain::Drain;
pub use string::json::FromJsonError;
pub use string::{CompactString, PolicyString};
