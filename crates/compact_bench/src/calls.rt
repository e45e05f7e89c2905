//! The calls, on texts of a kind and a length.

use crate::decode::{
    Decode, DecodeBe, DecodeBuffers, DecodeLe, DecodeLeLossy, DecodeLossy, DecodeUnits,
    DecodeUnitsLossy,
};
use crate::edit::{Drain, DropDrain, InsertStr, RemoveFirst, Replace, Retain, SplitOff};
use crate::inputs::{
    Cut, Named, alike, byte_texts, cuts, faulty_byte_texts, group, one, unit_bytes, units,
    with_numbers,
};
use crate::loops::{changed, converted, equal, hashed, inserted_removed, ordered, wired};
use crate::make::{
    Assign, Collect, Concat, Copied, Extend, ExtendTexts, Format, Grow, Join, Lower, New, Pop,
    Push, Refill, Repeat, ShowText, Truncate, WriteLine,
};
use crate::run::Kept::{One, Ring};
use crate::run::{either, either_on_values, ours, ours_on_values};
use compact_str::CompactString;
use std::alloc::Global;

/// Runs a loop over this library's type, or over the standard library's if `kit` is not 0.
macro_rules! over {
    ($run:ident, $kit:ident, $($argument:expr),*) => {{
        let sum = if $kit == 0 {
            $run::<CompactString>($($argument),*)
        } else {
            $run::<String>($($argument),*)
        };
        sum.unwrap_or(u64::MAX)
    }};
}

#[unsafe(no_mangle)]
pub extern "C" fn cs_new(alloc: Global, n: u64, kit: u32, kind: u32, len: u32) -> u64 {
    either::<New, String>(alloc, n, kit, alike(alloc, kind, len), Ring)
}

#[unsafe(no_mangle)]
pub extern "C" fn cs_clone(alloc: Global, n: u64, kit: u32, kind: u32, len: u32) -> u64 {
    either_on_values::<Copied>(alloc, n, kit, alike(alloc, kind, len), Ring)
}

#[unsafe(no_mangle)]
pub extern "C" fn cs_clone_from(alloc: Global, n: u64, kit: u32, kind: u32, len: u32) -> u64 {
    either_on_values::<Assign>(alloc, n, kit, alike(alloc, kind, len), One)
}

#[unsafe(no_mangle)]
pub extern "C" fn cs_push_str(alloc: Global, n: u64, kit: u32, kind: u32, len: u32) -> u64 {
    either::<Grow, String>(alloc, n, kit, alike(alloc, kind, len), Ring)
}

#[unsafe(no_mangle)]
pub extern "C" fn cs_refill(alloc: Global, n: u64, kit: u32, kind: u32, len: u32) -> u64 {
    either::<Refill, String>(alloc, n, kit, alike(alloc, kind, len), One)
}

#[unsafe(no_mangle)]
pub extern "C" fn cs_push(alloc: Global, n: u64, kit: u32, kind: u32, len: u32) -> u64 {
    either::<Push, String>(alloc, n, kit, alike(alloc, kind, len), One)
}

#[unsafe(no_mangle)]
pub extern "C" fn cs_pop(alloc: Global, n: u64, kit: u32, kind: u32, len: u32) -> u64 {
    either::<Pop, String>(alloc, n, kit, alike(alloc, kind, len), One)
}

#[unsafe(no_mangle)]
pub extern "C" fn cs_extend(alloc: Global, n: u64, kit: u32, kind: u32, len: u32) -> u64 {
    either::<Extend, String>(alloc, n, kit, alike(alloc, kind, len), One)
}

#[unsafe(no_mangle)]
pub extern "C" fn cs_write(alloc: Global, n: u64, kit: u32, kind: u32, len: u32) -> u64 {
    either::<WriteLine, String>(alloc, n, kit, alike(alloc, kind, len), One)
}

#[unsafe(no_mangle)]
pub extern "C" fn cs_collect(alloc: Global, n: u64, kit: u32, kind: u32, len: u32) -> u64 {
    either::<Collect, String>(alloc, n, kit, alike(alloc, kind, len), One)
}

#[unsafe(no_mangle)]
pub extern "C" fn cs_extend_texts(alloc: Global, n: u64, kind: u32, len: u32) -> u64 {
    ours::<ExtendTexts, Vec<String>>(alloc, n, group(alloc, alike(alloc, kind, len), 8), One)
}

#[unsafe(no_mangle)]
pub extern "C" fn cs_join(alloc: Global, n: u64, kind: u32, len: u32) -> u64 {
    ours::<Join, Vec<String>>(alloc, n, group(alloc, alike(alloc, kind, len), 3), Ring)
}

#[unsafe(no_mangle)]
pub extern "C" fn cs_concat(alloc: Global, n: u64, kind: u32, len: u32) -> u64 {
    ours::<Concat, Vec<String>>(alloc, n, group(alloc, alike(alloc, kind, len), 3), Ring)
}

#[unsafe(no_mangle)]
pub extern "C" fn cs_repeat(alloc: Global, n: u64, kind: u32, len: u32) -> u64 {
    ours_on_values::<Repeat>(alloc, n, alike(alloc, kind, len), Ring)
}

#[unsafe(no_mangle)]
pub extern "C" fn cs_to_lowercase(alloc: Global, n: u64, kind: u32, len: u32) -> u64 {
    ours_on_values::<Lower>(alloc, n, alike(alloc, kind, len), Ring)
}

#[unsafe(no_mangle)]
pub extern "C" fn cs_format(alloc: Global, n: u64, kit: u32, kind: u32, len: u32) -> u64 {
    either::<Format, Named>(
        alloc,
        n,
        kit,
        with_numbers(alloc, alike(alloc, kind, len)),
        Ring,
    )
}

#[unsafe(no_mangle)]
pub extern "C" fn cs_to_text(alloc: Global, n: u64, kind: u32, len: u32) -> u64 {
    ours::<ShowText, String>(alloc, n, alike(alloc, kind, len), Ring)
}

#[unsafe(no_mangle)]
pub extern "C" fn cs_truncate(alloc: Global, n: u64, kit: u32, kind: u32, len: u32) -> u64 {
    let cuts = cuts(alloc, kind, alike(alloc, kind, len), [50, 50, 0, 0]);
    either::<Truncate, Cut>(alloc, n, kit, cuts, One)
}

#[unsafe(no_mangle)]
pub extern "C" fn cs_insert_str(alloc: Global, n: u64, kit: u32, kind: u32, len: u32) -> u64 {
    let cuts = cuts(alloc, kind, alike(alloc, kind, len), [50, 50, 50, 60]);
    either::<InsertStr, Cut>(alloc, n, kit, cuts, One)
}

#[unsafe(no_mangle)]
pub extern "C" fn cs_remove_first(alloc: Global, n: u64, kit: u32, kind: u32, len: u32) -> u64 {
    let cuts = cuts(alloc, kind, alike(alloc, kind, len), [0, 0, 0, 0]);
    either::<RemoveFirst, Cut>(alloc, n, kit, cuts, One)
}

#[unsafe(no_mangle)]
pub extern "C" fn cs_split_off(alloc: Global, n: u64, kit: u32, kind: u32, len: u32) -> u64 {
    let cuts = cuts(alloc, kind, alike(alloc, kind, len), [50, 50, 0, 0]);
    either::<SplitOff, Cut>(alloc, n, kit, cuts, Ring)
}

#[unsafe(no_mangle)]
pub extern "C" fn cs_replace_shorter(alloc: Global, n: u64, kit: u32, kind: u32, len: u32) -> u64 {
    let cuts = cuts(alloc, kind, alike(alloc, kind, len), [40, 60, 50, 60]);
    either::<Replace, Cut>(alloc, n, kit, cuts, One)
}

#[unsafe(no_mangle)]
pub extern "C" fn cs_replace_equal(alloc: Global, n: u64, kit: u32, kind: u32, len: u32) -> u64 {
    let cuts = cuts(alloc, kind, alike(alloc, kind, len), [40, 60, 40, 60]);
    either::<Replace, Cut>(alloc, n, kit, cuts, One)
}

#[unsafe(no_mangle)]
pub extern "C" fn cs_replace_longer(alloc: Global, n: u64, kit: u32, kind: u32, len: u32) -> u64 {
    let cuts = cuts(alloc, kind, alike(alloc, kind, len), [40, 60, 40, 99]);
    either::<Replace, Cut>(alloc, n, kit, cuts, One)
}

#[unsafe(no_mangle)]
pub extern "C" fn cs_drain(alloc: Global, n: u64, kit: u32, kind: u32, len: u32) -> u64 {
    let cuts = cuts(alloc, kind, alike(alloc, kind, len), [25, 75, 0, 0]);
    either::<Drain, Cut>(alloc, n, kit, cuts, One)
}

#[unsafe(no_mangle)]
pub extern "C" fn cs_drain_front(alloc: Global, n: u64, kit: u32, kind: u32, len: u32) -> u64 {
    let cuts = cuts(alloc, kind, alike(alloc, kind, len), [0, 25, 0, 0]);
    either::<DropDrain, Cut>(alloc, n, kit, cuts, One)
}

#[unsafe(no_mangle)]
pub extern "C" fn cs_drain_back(alloc: Global, n: u64, kit: u32, kind: u32, len: u32) -> u64 {
    let cuts = cuts(alloc, kind, alike(alloc, kind, len), [75, 100, 0, 0]);
    either::<DropDrain, Cut>(alloc, n, kit, cuts, One)
}

#[unsafe(no_mangle)]
pub extern "C" fn cs_retain(alloc: Global, n: u64, kit: u32, kind: u32, len: u32) -> u64 {
    let cuts = cuts(alloc, kind, alike(alloc, kind, len), [0, 0, 0, 0]);
    either::<Retain, Cut>(alloc, n, kit, cuts, One)
}

#[unsafe(no_mangle)]
pub extern "C" fn cs_insert_remove(alloc: Global, n: u64, kit: u32, kind: u32, len: u32) -> u64 {
    let cuts = cuts(alloc, kind, one(alloc, kind, len), [50, 50, 0, 0]);
    over!(inserted_removed, kit, alloc, n, cuts, kind)
}

#[unsafe(no_mangle)]
pub extern "C" fn cs_change_case(alloc: Global, n: u64, kit: u32, kind: u32, len: u32) -> u64 {
    over!(changed, kit, alloc, n, alike(alloc, kind, len))
}

#[unsafe(no_mangle)]
pub extern "C" fn cs_from_utf8(alloc: Global, n: u64, kit: u32, kind: u32, len: u32) -> u64 {
    let texts = alike(alloc, kind, len);
    either::<Decode, Vec<u8>>(alloc, n, kit, byte_texts(alloc, texts), Ring)
}

#[unsafe(no_mangle)]
pub extern "C" fn cs_from_utf8_lossy(alloc: Global, n: u64, kit: u32, kind: u32, len: u32) -> u64 {
    let texts = alike(alloc, kind, len);
    either::<DecodeLossy, Vec<u8>>(alloc, n, kit, byte_texts(alloc, texts), Ring)
}

#[unsafe(no_mangle)]
pub extern "C" fn cs_from_faulty_utf8(alloc: Global, n: u64, kit: u32, kind: u32, len: u32) -> u64 {
    let texts = alike(alloc, kind, len);
    either::<DecodeLossy, Vec<u8>>(alloc, n, kit, faulty_byte_texts(alloc, texts, 5), Ring)
}

#[unsafe(no_mangle)]
pub extern "C" fn cs_from_utf16(alloc: Global, n: u64, kit: u32, kind: u32, len: u32) -> u64 {
    let texts = alike(alloc, kind, len);
    either::<DecodeUnits, Vec<u16>>(alloc, n, kit, units(alloc, texts), Ring)
}

#[unsafe(no_mangle)]
pub extern "C" fn cs_from_utf16_lossy(alloc: Global, n: u64, kit: u32, kind: u32, len: u32) -> u64 {
    let texts = alike(alloc, kind, len);
    either::<DecodeUnitsLossy, Vec<u16>>(alloc, n, kit, units(alloc, texts), Ring)
}

#[unsafe(no_mangle)]
pub extern "C" fn cs_from_utf8_buf(alloc: Global, n: u64, kind: u32, len: u32) -> u64 {
    ours::<DecodeBuffers, Vec<u8>>(alloc, n, byte_texts(alloc, alike(alloc, kind, len)), Ring)
}

#[unsafe(no_mangle)]
pub extern "C" fn cs_from_utf16le(alloc: Global, n: u64, kind: u32, len: u32) -> u64 {
    let texts = alike(alloc, kind, len);
    ours::<DecodeLe, Vec<u8>>(alloc, n, unit_bytes(alloc, texts, false), Ring)
}

#[unsafe(no_mangle)]
pub extern "C" fn cs_from_utf16be(alloc: Global, n: u64, kind: u32, len: u32) -> u64 {
    let texts = alike(alloc, kind, len);
    ours::<DecodeBe, Vec<u8>>(alloc, n, unit_bytes(alloc, texts, true), Ring)
}

#[unsafe(no_mangle)]
pub extern "C" fn cs_from_utf16le_lossy(alloc: Global, n: u64, kind: u32, len: u32) -> u64 {
    let texts = alike(alloc, kind, len);
    ours::<DecodeLeLossy, Vec<u8>>(alloc, n, unit_bytes(alloc, texts, false), Ring)
}

#[unsafe(no_mangle)]
pub extern "C" fn cs_eq(alloc: Global, n: u64, kit: u32, kind: u32, len: u32) -> u64 {
    over!(equal, kit, alloc, n, alike(alloc, kind, len))
}

#[unsafe(no_mangle)]
pub extern "C" fn cs_cmp(alloc: Global, n: u64, kit: u32, kind: u32, len: u32) -> u64 {
    over!(ordered, kit, alloc, n, alike(alloc, kind, len))
}

#[unsafe(no_mangle)]
pub extern "C" fn cs_hash(alloc: Global, n: u64, kit: u32, kind: u32, len: u32) -> u64 {
    over!(hashed, kit, alloc, n, alike(alloc, kind, len))
}

#[unsafe(no_mangle)]
pub extern "C" fn cs_into_string(alloc: Global, n: u64, kind: u32, len: u32) -> u64 {
    converted(alloc, n, alike(alloc, kind, len)).unwrap_or(u64::MAX)
}

#[unsafe(no_mangle)]
pub extern "C" fn cs_write_wire(alloc: Global, n: u64, kind: u32, len: u32) -> u64 {
    wired(alloc, n, alike(alloc, kind, len), true, false).unwrap_or(u64::MAX)
}

#[unsafe(no_mangle)]
pub extern "C" fn cs_read_wire(alloc: Global, n: u64, kind: u32, len: u32) -> u64 {
    wired(alloc, n, alike(alloc, kind, len), false, true).unwrap_or(u64::MAX)
}
