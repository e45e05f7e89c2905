//! Tests of `compact_edit`: runs of edits, random edits of inline texts, runs of pushes and the bytes they move, and
//! the interner.
#![tactic(auto)]

#[cfg(test)]
mod inline_edits;
#[cfg(test)]
mod interner;
#[cfg(test)]
mod push_reports;
#[cfg(test)]
mod runs;
