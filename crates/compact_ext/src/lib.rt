//! Strings from numbers and formats, and a binary wire form for strings.
#![tactic(auto, using(compact_text::proofs::TextFacts::text_facts))]

mod error_conversions;
mod format;
mod lines;
mod to_compact_string;
pub mod wire;

pub use format::{ToCompactStringError, collect_display};
pub use lines::{ReadLineError, read_line};
pub use to_compact_string::{ToCompactString, numbers_are_short, numbers_go_digit_by_digit};
