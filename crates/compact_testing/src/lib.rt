//! Shared by several crates of tests: exhausted memory, sample values and checks of a value, readers and writers that
//! stop, random numbers, and growth policies.
#![tactic(auto)]

pub mod checks;
pub mod memory;
pub mod policies;
pub mod random;
pub mod stopping_io;
pub mod values;
