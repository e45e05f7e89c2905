//! Tests of `compact_lines`: sessions of lines, lines that are no commands, and readers and writers that stop.
#![tactic(auto)]

#[cfg(test)]
#[cfg(test)]
mod failing_writers;
#[cfg(test)]
mod growth;
#[cfg(test)]
mod lines;
#[cfg(test)]
mod no_commands;
#[cfg(test)]
mod removals;
#[cfg(test)]
mod sessions;
#[cfg(test)]
mod transcript;
