//! Calls over `CompactString`, as C functions for a benchmark: `bench/main.rs` times them beside the same over Rust's
//! `String`.
//!
//! Each function makes its inputs, does `n` operations and returns a checksum, or `u64::MAX` if allocation fails.
//! Those named `cs_bench_..` have fixed inputs. The others take the kind of characters and the length of the texts, and
//! most also whether to run over the `String` of the standard library instead.
#![tactic(auto)]

mod calls;
mod decode;
mod edit;
mod hasher;
mod inputs;
mod intern;
mod loops;
mod make;
mod run;
mod text;
mod workloads;

use compact_str::CompactString;
use std::mem::size_of;

/// The size of a value.
#[unsafe(no_mangle)]
pub extern "C" fn cs_bench_size_of_value() -> u64 {
    size_of::<CompactString>() as u64
}
