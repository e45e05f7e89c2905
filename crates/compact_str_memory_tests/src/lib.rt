//! Tests of `compact_str` with all memory taken. Under `rt try --test` those fail, since its checks allocate.
#![tactic(auto)]

#[cfg(test)]
mod asserts;
#[cfg(test)]
mod decoding;
#[cfg(test)]
mod edits;
#[cfg(test)]
mod hinting_iterator;
#[cfg(test)]
mod read_fields;
#[cfg(test)]
mod results;
#[cfg(test)]
mod size_hints;
#[cfg(test)]
mod size_hints_no_memory;
#[cfg(test)]
mod take_all;
