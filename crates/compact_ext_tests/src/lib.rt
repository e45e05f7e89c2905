//! Tests of `compact_ext`: texts of numbers and of formats, and the wire form.
#![tactic(auto)]

#[cfg(test)]
#[cfg(test)]
mod formats;
#[cfg(test)]
mod number_values;
#[cfg(test)]
mod numbers;
#[cfg(test)]
mod read_line;
#[cfg(test)]
mod wire;
#[cfg(test)]
mod wire_forms;
#[cfg(test)]
mod wire_records;
#[cfg(test)]
mod wire_stops;
