//! Tests of the programs to copy: their results, also over readers that stop.
#![tactic(auto)]

#[cfg(test)]
mod ranking;
#[cfg(test)]
mod records;
#[cfg(test)]
mod report;
#[cfg(test)]
mod tokenizer;
