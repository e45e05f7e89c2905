//! Lists of edits, bounded growth and an interner.
//!
//! [`run`] states this library's main promise: for every list of edits on any value, each reply and each resulting text
//! are those of a plain list of characters, place and capacity follow the rules of `specs/`, and an edit that fails
//! changes nothing.
//!
//! [`run_pushes`] builds a text by many pushes, and bounds the bytes that this moves, under any growth policy.
//!
//! [`Interner`] numbers distinct texts by their first occurrence.
#![tactic(auto)]

mod edit;
mod intern;
mod pushes;
mod runs;

pub use edit::{Edit, Reply};
pub use intern::{InternError, Interner, MAX_COUNT};
pub use pushes::{PushReport, run_pushes};
pub use runs::run;
