//! The workloads, on fixed texts.

use crate::decode::{Decode, DecodeLossy, DecodeUnits};
use crate::edit::{Drain, Retain, RetainTwo};
use crate::inputs::{
    Cut, Generator, LETTERS, MIXED, Made, Named, byte_texts, cuts, faulty_byte_texts, group,
    numbers, one, shifted_numbers, units, with_numbers, words,
};
use crate::loops::{
    built, changed, converted, equal, hashed, inserted_removed, ordered, replaced, wired,
};
use crate::make::{Collect, Copied, Format, Join, New, ShowNumber};
use crate::run::Kept::{One, Ring};
use crate::run::{ours, ours_on_values};
use compact_str::CompactString;
use std::alloc::Global;

/// Draws 16 texts of 1024 bytes of mixed characters.
fn mixed(alloc: Global) -> Made<String> {
    Generator::new().texts(alloc, MIXED, 16, 1024, 1)
}

#[unsafe(no_mangle)]
pub extern "C" fn cs_bench_new_short(alloc: Global, n: u64) -> u64 {
    ours::<New, String>(alloc, n, words(alloc, 4096, 0, 25), Ring)
}

#[unsafe(no_mangle)]
pub extern "C" fn cs_bench_new_long(alloc: Global, n: u64) -> u64 {
    ours::<New, String>(alloc, n, words(alloc, 1024, 25, 176), Ring)
}

#[unsafe(no_mangle)]
pub extern "C" fn cs_bench_clone_short(alloc: Global, n: u64) -> u64 {
    ours_on_values::<Copied>(alloc, n, words(alloc, 4096, 0, 25), Ring)
}

#[unsafe(no_mangle)]
pub extern "C" fn cs_bench_clone_long(alloc: Global, n: u64) -> u64 {
    ours_on_values::<Copied>(alloc, n, words(alloc, 1024, 25, 176), Ring)
}

#[unsafe(no_mangle)]
pub extern "C" fn cs_bench_push_build(alloc: Global, n: u64) -> u64 {
    built(alloc, n, words(alloc, 1024, 1, 16)).unwrap_or(u64::MAX)
}

#[unsafe(no_mangle)]
pub extern "C" fn cs_bench_insert_remove_short(alloc: Global, n: u64) -> u64 {
    let cuts = cuts(alloc, LETTERS, one(alloc, LETTERS, 12), [50, 50, 0, 0]);
    inserted_removed::<CompactString>(alloc, n, cuts, LETTERS).unwrap_or(u64::MAX)
}

#[unsafe(no_mangle)]
pub extern "C" fn cs_bench_insert_remove_long(alloc: Global, n: u64) -> u64 {
    let cuts = cuts(alloc, LETTERS, one(alloc, LETTERS, 1000), [50, 50, 0, 0]);
    inserted_removed::<CompactString>(alloc, n, cuts, LETTERS).unwrap_or(u64::MAX)
}

#[unsafe(no_mangle)]
pub extern "C" fn cs_bench_replace_range(alloc: Global, n: u64) -> u64 {
    replaced(alloc, n, one(alloc, LETTERS, 200)).unwrap_or(u64::MAX)
}

#[unsafe(no_mangle)]
pub extern "C" fn cs_bench_eq_short(alloc: Global, n: u64) -> u64 {
    equal::<CompactString>(alloc, n, words(alloc, 4096, 0, 25)).unwrap_or(u64::MAX)
}

#[unsafe(no_mangle)]
pub extern "C" fn cs_bench_cmp_short(alloc: Global, n: u64) -> u64 {
    ordered::<CompactString>(alloc, n, words(alloc, 4096, 0, 25)).unwrap_or(u64::MAX)
}

#[unsafe(no_mangle)]
pub extern "C" fn cs_bench_hash_short(alloc: Global, n: u64) -> u64 {
    hashed::<CompactString>(alloc, n, words(alloc, 4096, 0, 25)).unwrap_or(u64::MAX)
}

#[unsafe(no_mangle)]
pub extern "C" fn cs_bench_into_string(alloc: Global, n: u64) -> u64 {
    converted(alloc, n, one(alloc, LETTERS, 100_000)).unwrap_or(u64::MAX)
}

#[unsafe(no_mangle)]
pub extern "C" fn cs_bench_retain(alloc: Global, n: u64) -> u64 {
    let cuts = cuts(alloc, LETTERS, words(alloc, 16, 200, 1), [0, 0, 0, 0]);
    ours::<Retain, Cut>(alloc, n, cuts, One)
}

#[unsafe(no_mangle)]
pub extern "C" fn cs_bench_retain_long(alloc: Global, n: u64) -> u64 {
    let cuts = cuts(alloc, LETTERS, one(alloc, LETTERS, 1024), [0, 0, 0, 0]);
    ours::<RetainTwo, Cut>(alloc, n, cuts, One)
}

#[unsafe(no_mangle)]
pub extern "C" fn cs_bench_drain(alloc: Global, n: u64) -> u64 {
    let cuts = cuts(alloc, LETTERS, words(alloc, 16, 200, 1), [25, 75, 0, 0]);
    ours::<Drain, Cut>(alloc, n, cuts, One)
}

#[unsafe(no_mangle)]
pub extern "C" fn cs_bench_drain_long(alloc: Global, n: u64) -> u64 {
    let cuts = cuts(alloc, LETTERS, one(alloc, LETTERS, 1024), [40, 60, 0, 0]);
    ours::<Drain, Cut>(alloc, n, cuts, One)
}

#[unsafe(no_mangle)]
pub extern "C" fn cs_bench_change_letters(alloc: Global, n: u64) -> u64 {
    changed::<CompactString>(alloc, n, one(alloc, LETTERS, 1024)).unwrap_or(u64::MAX)
}

#[unsafe(no_mangle)]
pub extern "C" fn cs_bench_utf8_ascii(alloc: Global, n: u64) -> u64 {
    ours::<Decode, Vec<u8>>(alloc, n, byte_texts(alloc, words(alloc, 16, 1024, 1)), Ring)
}

#[unsafe(no_mangle)]
pub extern "C" fn cs_bench_utf8_mixed(alloc: Global, n: u64) -> u64 {
    ours::<Decode, Vec<u8>>(alloc, n, byte_texts(alloc, mixed(alloc)), Ring)
}

#[unsafe(no_mangle)]
pub extern "C" fn cs_bench_utf8_lossy(alloc: Global, n: u64) -> u64 {
    ours::<DecodeLossy, Vec<u8>>(alloc, n, faulty_byte_texts(alloc, mixed(alloc), 63), Ring)
}

#[unsafe(no_mangle)]
pub extern "C" fn cs_bench_utf8_lossy_valid(alloc: Global, n: u64) -> u64 {
    ours::<DecodeLossy, Vec<u8>>(alloc, n, byte_texts(alloc, mixed(alloc)), Ring)
}

#[unsafe(no_mangle)]
pub extern "C" fn cs_bench_utf16(alloc: Global, n: u64) -> u64 {
    ours::<DecodeUnits, Vec<u16>>(alloc, n, units(alloc, mixed(alloc)), Ring)
}

#[unsafe(no_mangle)]
pub extern "C" fn cs_bench_u64_text(alloc: Global, n: u64) -> u64 {
    ours::<ShowNumber, u64>(alloc, n, shifted_numbers(alloc), Ring)
}

#[unsafe(no_mangle)]
pub extern "C" fn cs_bench_u64_digits(alloc: Global, n: u64) -> u64 {
    ours::<ShowNumber, u64>(alloc, n, numbers(alloc), Ring)
}

#[unsafe(no_mangle)]
pub extern "C" fn cs_bench_format(alloc: Global, n: u64) -> u64 {
    ours::<Format, Named>(
        alloc,
        n,
        with_numbers(alloc, words(alloc, 1024, 1, 12)),
        Ring,
    )
}

#[unsafe(no_mangle)]
pub extern "C" fn cs_bench_wire(alloc: Global, n: u64) -> u64 {
    wired(alloc, n, words(alloc, 100, 1, 40), true, true).unwrap_or(u64::MAX)
}

#[unsafe(no_mangle)]
pub extern "C" fn cs_bench_collect_chars(alloc: Global, n: u64) -> u64 {
    ours::<Collect, String>(alloc, n, one(alloc, LETTERS, 1024), One)
}

#[unsafe(no_mangle)]
pub extern "C" fn cs_bench_join(alloc: Global, n: u64) -> u64 {
    ours::<Join, Vec<String>>(alloc, n, group(alloc, words(alloc, 100, 1, 12), 100), One)
}
