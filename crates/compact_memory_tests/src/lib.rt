//! Tests with all memory taken, of `compact_ext`, `compact_edit`, `compact_lines` and `compact_uses`. Under
//! `rt try --test` those fail, since its checks allocate.
#![tactic(auto)]

#[cfg(test)]
#[cfg(test)]
mod endless_reader;
#[cfg(test)]
mod formats;
#[cfg(test)]
mod interner;
#[cfg(test)]
mod pushes;
#[cfg(test)]
mod random_pushes;
#[cfg(test)]
mod records;
#[cfg(test)]
mod reports;
#[cfg(test)]
mod runs;
#[cfg(test)]
mod sessions;
#[cfg(test)]
mod tokenizer;
#[cfg(test)]
mod wire;
