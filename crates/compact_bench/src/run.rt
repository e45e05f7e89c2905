//! Running a call.

use crate::inputs::{Made, values};
use crate::text::Text;
use compact_str::{CompactString, ReserveError};
use std::alloc::Global;

/// A call on a value that is timed, with an input. It returns what it read, for the checksum, or 0.
pub trait Call<T, I> {
    fn run(alloc: Global, value: &mut T, input: &I) -> Result<u64, ReserveError>;
}

/// Whether all operations have one value, or each its own, which stays for 63 more.
#[derive(Clone, Copy, PartialEq)]
pub enum Kept {
    One,
    Ring,
}

/// Mixes a number into `sum`.
#[inline]
pub fn mix(sum: u64, number: u64) -> u64 {
    sum.wrapping_mul(31).wrapping_add(number)
}

/// Returns 256 times the length of a text plus its last byte, or 0 if it is empty.
#[inline]
pub fn probe<T: Text>(value: &T) -> u64 {
    let bytes = value.as_bytes();
    let last = match bytes.last() {
        Some(byte) => u64::from(*byte),
        None => 0,
    };
    (bytes.len() as u64).wrapping_mul(256).wrapping_add(last)
}

/// Makes `n` calls, with each input in turn, and returns a checksum over the values seen.
fn timed<C: Call<T, I>, T: Text, I>(
    alloc: Global,
    n: u64,
    inputs: &[I],
    kept: Kept,
) -> Result<u64, ReserveError> {
    match kept {
        Kept::One => on_one::<C, T, I>(alloc, n, inputs),
        Kept::Ring => in_ring::<C, T, I>(alloc, n, inputs),
    }
}

/// Makes calls on one value.
fn on_one<C: Call<T, I>, T: Text, I>(
    alloc: Global,
    n: u64,
    inputs: &[I],
) -> Result<u64, ReserveError> {
    let mut value = T::new(alloc, "")?;
    let mut sum: u64 = 0;
    for input in inputs.iter().cycle().take(n as usize) {
        sum = sum.wrapping_add(C::run(alloc, &mut value, input)?);
        sum = mix(sum, probe(&value));
    }
    Ok(sum)
}

/// Makes calls on a ring of values, and sees an earlier one.
fn in_ring<C: Call<T, I>, T: Text, I>(
    alloc: Global,
    n: u64,
    inputs: &[I],
) -> Result<u64, ReserveError> {
    let mut values = Vec::from_elem(alloc, T::new(alloc, "")?, 64)?;
    let mut sum: u64 = 0;
    let mut at: usize = 0;
    for input in inputs.iter().cycle().take(n as usize) {
        if let Some(value) = values.get_mut(at % 64) {
            sum = sum.wrapping_add(C::run(alloc, value, input)?);
        }
        if let Some(value) = values.get(at.wrapping_add(57) % 64) {
            sum = mix(sum, probe(value));
        }
        at = at.wrapping_add(1);
    }
    Ok(sum)
}

/// Makes calls over this library's type. Returns `u64::MAX` if allocation fails.
pub fn ours<C: Call<CompactString, I>, I: Drop>(
    alloc: Global,
    n: u64,
    inputs: Made<I>,
    kept: Kept,
) -> u64 {
    match inputs {
        Ok(inputs) => timed::<C, CompactString, I>(alloc, n, &inputs, kept).unwrap_or(u64::MAX),
        Err(_) => u64::MAX,
    }
}

/// The same over the standard library's type if `kit` is not 0.
pub fn either<C: Call<CompactString, I> + Call<String, I>, I: Drop>(
    alloc: Global,
    n: u64,
    kit: u32,
    inputs: Made<I>,
    kept: Kept,
) -> u64 {
    match inputs {
        Ok(inputs) if kit != 0 => {
            timed::<C, String, I>(alloc, n, &inputs, kept).unwrap_or(u64::MAX)
        }
        inputs => ours::<C, I>(alloc, n, inputs, kept),
    }
}

/// Makes calls on values of texts.
fn on_values<C: Call<T, T>, T: Text>(
    alloc: Global,
    n: u64,
    texts: Made<String>,
    kept: Kept,
) -> Result<u64, ReserveError> {
    let values: Vec<T> = values(alloc, &texts?, 0)?;
    timed::<C, T, T>(alloc, n, &values, kept)
}

/// Makes calls on values of texts, over this library's type.
pub fn ours_on_values<C: Call<CompactString, CompactString>>(
    alloc: Global,
    n: u64,
    texts: Made<String>,
    kept: Kept,
) -> u64 {
    on_values::<C, CompactString>(alloc, n, texts, kept).unwrap_or(u64::MAX)
}

/// Makes calls on values of texts, over one type or the other.
pub fn either_on_values<C: Call<CompactString, CompactString> + Call<String, String>>(
    alloc: Global,
    n: u64,
    kit: u32,
    texts: Made<String>,
    kept: Kept,
) -> u64 {
    let sum = if kit == 0 {
        on_values::<C, CompactString>(alloc, n, texts, kept)
    } else {
        on_values::<C, String>(alloc, n, texts, kept)
    };
    sum.unwrap_or(u64::MAX)
}
