//! Strings from integers of up to 64 bits.
ghost use Rattle.std.specs.Prelude.{◌≡◌, ⊤};
ghost use Rattle.std.specs.Fmt.{decimal, signed_decimal};
ghost use Rattle.compact_str.specs.Value.{placed_text};
ghost use Rattle.compact_str.specs.Capacity.{inline_placement};
ghost use Rattle.compact_ext.specs.Digits.{number_text};
ghost use Rattle.compact_ext.specs.Shown.{Converts};

use crate::format::ToCompactStringError;
use crate::to_compact_string::ToCompactString;
use crate::to_compact_string::digits::packed_number;
use compact_str::CompactString;
use std::alloc::Global;

/// Returns an inline string of a number.
#[inline]
fn number_string(alloc: Global, magnitude: u64, is_negative: bool) -> CompactString
    ensures { result ≡ placed_text (number_text is_negative magnitude) inline_placement }
{
    match CompactString::from_packed(alloc, &packed_number(magnitude, is_negative)) {
        Some(value) => value,
        None => unreachable!(),
    }
}

/// Converts an unsigned number.
///
/// # Errors
///
/// Never fails, since the text is inline.
#[inline]
#[tactic(auto, using(crate::proofs::NumberTexts::number_facts))]
pub fn unsigned(alloc: Global, n: u64) -> Result<CompactString, ToCompactStringError>
    // As `ToCompactString::to_compact_string` of a short value.
    ensures { Converts (decimal n) ⊤ result }
{
    Ok(number_string(alloc, n, false))
}

/// Converts a signed number. Formats the magnitude as unsigned, since that of the minimum overflows.
///
/// # Errors
///
/// Never fails, since the text is inline.
#[inline]
#[tactic(auto, using(crate::proofs::NumberTexts::number_facts))]
pub fn signed(alloc: Global, n: i64) -> Result<CompactString, ToCompactStringError>
    // As `ToCompactString::to_compact_string` of a short value.
    ensures { Converts (signed_decimal n) ⊤ result }
{
    Ok(number_string(alloc, n.unsigned_abs(), n < 0))
}

impl ToCompactString for u8 {
    ghost shown_text = { decimal };

    ghost IsShort = { λ _. ⊤ };

    #[inline]
    fn to_compact_string(&self, alloc: Global) -> Result<CompactString, ToCompactStringError> {
        let n: u8 = *self;
        unsigned(alloc, u64::from(n))
    }
}

impl ToCompactString for u16 {
    ghost shown_text = { decimal };

    ghost IsShort = { λ _. ⊤ };

    #[inline]
    fn to_compact_string(&self, alloc: Global) -> Result<CompactString, ToCompactStringError> {
        let n: u16 = *self;
        unsigned(alloc, u64::from(n))
    }
}

impl ToCompactString for u32 {
    ghost shown_text = { decimal };

    ghost IsShort = { λ _. ⊤ };

    #[inline]
    fn to_compact_string(&self, alloc: Global) -> Result<CompactString, ToCompactStringError> {
        let n: u32 = *self;
        unsigned(alloc, u64::from(n))
    }
}

impl ToCompactString for u64 {
    ghost shown_text = { decimal };

    ghost IsShort = { λ _. ⊤ };

    #[inline]
    fn to_compact_string(&self, alloc: Global) -> Result<CompactString, ToCompactStringError> {
        let n: u64 = *self;
        unsigned(alloc, n)
    }
}

impl ToCompactString for usize {
    ghost shown_text = { decimal };

    ghost IsShort = { λ _. ⊤ };

    #[inline]
    fn to_compact_string(&self, alloc: Global) -> Result<CompactString, ToCompactStringError> {
        let n: usize = *self;
        unsigned(alloc, n as u64)
    }
}

impl ToCompactString for i8 {
    ghost shown_text = { signed_decimal };

    ghost IsShort = { λ _. ⊤ };

    #[inline]
    fn to_compact_string(&self, alloc: Global) -> Result<CompactString, ToCompactStringError> {
        let n: i8 = *self;
        signed(alloc, i64::from(n))
    }
}

impl ToCompactString for i16 {
    ghost shown_text = { signed_decimal };

    ghost IsShort = { λ _. ⊤ };

    #[inline]
    fn to_compact_string(&self, alloc: Global) -> Result<CompactString, ToCompactStringError> {
        let n: i16 = *self;
        signed(alloc, i64::from(n))
    }
}

impl ToCompactString for i32 {
    ghost shown_text = { signed_decimal };

    ghost IsShort = { λ _. ⊤ };

    #[inline]
    fn to_compact_string(&self, alloc: Global) -> Result<CompactString, ToCompactStringError> {
        let n: i32 = *self;
        signed(alloc, i64::from(n))
    }
}

impl ToCompactString for i64 {
    ghost shown_text = { signed_decimal };

    ghost IsShort = { λ _. ⊤ };

    #[inline]
    fn to_compact_string(&self, alloc: Global) -> Result<CompactString, ToCompactStringError> {
        let n: i64 = *self;
        signed(alloc, n)
    }
}

impl ToCompactString for isize {
    ghost shown_text = { signed_decimal };

    ghost IsShort = { λ _. ⊤ };

    #[inline]
    fn to_compact_string(&self, alloc: Global) -> Result<CompactString, ToCompactStringError> {
        let n: isize = *self;
        signed(alloc, n as i64)
    }
}
