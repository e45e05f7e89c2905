//! Tests of what the contracts of `compact_callers` leave open, with ample memory.
#![tactic(auto)]

#[cfg(test)]
mod deref;
#[cfg(test)]
mod error;
#[cfg(test)]
mod field;
#[cfg(test)]
mod iterator;
#[cfg(test)]
mod lender;
#[cfg(test)]
mod lines_read;
#[cfg(test)]
mod lookup;
#[cfg(test)]
mod made;
#[cfg(test)]
mod one_error;
#[cfg(test)]
mod packed;
#[cfg(test)]
mod part;
#[cfg(test)]
mod plain;
#[cfg(test)]
mod range;
#[cfg(test)]
mod read;
#[cfg(test)]
mod run;
#[cfg(test)]
mod sorted;
#[cfg(test)]
mod wire;
