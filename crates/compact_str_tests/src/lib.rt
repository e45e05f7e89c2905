//! Tests of `compact_str`: making, decoding, collecting, editing, splitting, comparing, formatting and converting
//! values; also bytes in pieces.
#![tactic(auto)]

#[cfg(test)]
mod buffers;
#[cfg(test)]
mod capacity;
#[cfg(test)]
mod collect;
#[cfg(test)]
mod comparisons;
#[cfg(test)]
mod constructors;
#[cfg(test)]
mod conversions;
#[cfg(test)]
mod decoding;
#[cfg(test)]
mod decoding_all;
#[cfg(test)]
mod fields;
#[cfg(test)]
mod formatting;
#[cfg(test)]
mod long_texts;
#[cfg(test)]
mod one_byte_buf;
#[cfg(test)]
mod packed;
#[cfg(test)]
mod positions;
#[cfg(test)]
mod removals;
#[cfg(test)]
mod results;
#[cfg(test)]
mod written;
#[cfg(test)]
mod written_generic;
