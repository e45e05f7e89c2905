//! Texts of numbers of up to 64 bits, of a `bool` and of a `char`; every allocation fails.

use crate::failed_cases::Faults;
use crate::values::{inline, is_seen};
use compact_ext::{ToCompactString, ToCompactStringError};
use compact_str::CompactString;
use std::alloc::Global;
use std::num::{
    NonZeroI8, NonZeroI16, NonZeroI32, NonZeroI64, NonZeroIsize, NonZeroU8, NonZeroU16, NonZeroU32,
    NonZeroU64, NonZeroUsize,
};

/// Runs these cases.
pub fn cases(alloc: Global, faults: &mut Faults) {
    faults.apart("numbers: some are shown", shows_numbers(alloc));
    faults.apart("numbers: negative ones are shown", shows_negative(alloc));
    faults.apart(
        "numbers: bools and characters are shown",
        shows_others(alloc),
    );
    faults.apart(
        "numbers: some that are not 0 are shown",
        shows_nonzero(alloc),
    );
    let negative = shows_negative_nonzero(alloc);
    faults.apart("numbers: negative ones that are not 0 are shown", negative);
}

/// Returns `true` if a value has this text by both calls.
fn shows<T: ToCompactString>(alloc: Global, value: &T, text: &str) -> bool {
    is_shown(value.to_compact_string(alloc), text)
        && is_shown(value.try_to_compact_string(alloc), text)
}

fn is_shown(outcome: Result<CompactString, ToCompactStringError>, text: &str) -> bool {
    match outcome {
        Ok(value) => is_seen(&value, inline(text)),
        Err(_) => false,
    }
}

fn shows_numbers(alloc: Global) -> bool {
    let mut holds = shows(alloc, &u8::MAX, "255");
    holds &= shows(alloc, &u16::MAX, "65535");
    holds &= shows(alloc, &u32::MAX, "4294967295");
    holds &= shows(alloc, &u64::MAX, "18446744073709551615");
    holds && shows(alloc, &usize::MAX, "18446744073709551615")
}

fn shows_negative(alloc: Global) -> bool {
    let mut holds = shows(alloc, &i8::MIN, "-128");
    holds &= shows(alloc, &i16::MIN, "-32768");
    holds &= shows(alloc, &i32::MIN, "-2147483648");
    holds &= shows(alloc, &i64::MIN, "-9223372036854775808");
    holds && shows(alloc, &isize::MIN, "-9223372036854775808")
}

fn shows_others(alloc: Global) -> bool {
    let mut holds = shows(alloc, &true, "true");
    holds &= shows(alloc, &false, "false");
    holds && shows(alloc, &'🦄', "🦄")
}

fn shows_nonzero(alloc: Global) -> bool {
    let mut holds = shows(alloc, &NonZeroU8::MAX, "255");
    holds &= shows(alloc, &NonZeroU16::MAX, "65535");
    holds &= shows(alloc, &NonZeroU32::MAX, "4294967295");
    holds &= shows(alloc, &NonZeroU64::MAX, "18446744073709551615");
    holds && shows(alloc, &NonZeroUsize::MAX, "18446744073709551615")
}

fn shows_negative_nonzero(alloc: Global) -> bool {
    let mut holds = shows(alloc, &NonZeroI8::MIN, "-128");
    holds &= shows(alloc, &NonZeroI16::MIN, "-32768");
    holds &= shows(alloc, &NonZeroI32::MIN, "-2147483648");
    holds &= shows(alloc, &NonZeroI64::MIN, "-9223372036854775808");
    holds && shows(alloc, &NonZeroIsize::MIN, "-9223372036854775808")
}
