//! Edits as lines of text: reads commands, runs them on one value, and prints the outcomes and the value.
#![tactic(auto)]

mod command;
mod lines;
mod session;
mod write;

pub use lines::run_lines;
