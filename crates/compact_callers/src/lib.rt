//! Callers of the library, as users write them. Each is proved from the contracts of the calls; only those under
//! `proofs/` need a proof file. `compact_callers_tests` runs them.
#![tactic(auto)]

pub mod adapted;
pub mod collect;
pub mod count;
pub mod cuts;
pub mod decode;
pub mod deref;
pub mod error;
pub mod field;
pub mod fields;
pub mod hole;
pub mod in_bytes;
pub mod iterator;
pub mod key;
pub mod lender;
pub mod lines_read;
pub mod lookup;
pub mod made;
pub mod name;
pub mod numbered;
pub mod one_error;
pub mod out;
pub mod packed;
pub mod part;
pub mod parts;
pub mod plain;
pub mod push;
pub mod range;
pub mod read;
pub mod removal;
pub mod report;
pub mod run;
pub mod shown;
pub mod sorted;
pub mod text;
pub mod token;
pub mod wire;
