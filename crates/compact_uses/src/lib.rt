//! Example programs, each with a proved specification.
#![tactic(auto, using(compact_str::proofs::ForCallers::caller_facts))]

mod entries;
mod records;
mod report;
mod tokenizer;

pub use entries::{Entry, ranking};
pub use records::read_records;
pub use report::aligned_rows;
pub use tokenizer::{Kind, Token, tokenize};
