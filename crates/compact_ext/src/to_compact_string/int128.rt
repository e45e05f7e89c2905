//! Strings from integers of 128 bits, by the crate `itoa`.
ghost use Rattle.std.specs.Prelude.{◌≤◌, length};
ghost use Rattle.std.specs.Fmt.{decimal, signed_decimal};
ghost use Rattle.compact_str.specs.Words.{INLINE_CAPACITY};
ghost use Rattle.compact_ext.specs.Shown.{Converts};

use crate::format::ToCompactStringError;
use crate::to_compact_string::ToCompactString;
use crate::to_compact_string::texts::text_copy;
use compact_str::CompactString;
use itoa::{Buffer, Integer};
use std::alloc::Global;

/// Converts a number of 128 bits.
///
/// # Errors
///
/// `Reserve` if allocation fails. Never fails up to 24 bytes.
#[tactic(auto, using(compact_text::proofs::TextFacts::text_facts, crate::proofs::Facts::int128_facts))]
pub fn format_by_itoa<I: Integer>(
    alloc: Global,
    n: I,
) -> Result<CompactString, ToCompactStringError>
    // As `ToCompactString::to_compact_string`.
    ensures { Converts (I.text n) (length (I.text n) ≤ INLINE_CAPACITY) result }
{
    let mut buffer = Buffer::new();
    text_copy(alloc, buffer.format(n))
}

impl ToCompactString for u128 {
    ghost shown_text = { decimal };

    ghost IsShort = { λ n. length (decimal n) ≤ INLINE_CAPACITY };

    fn to_compact_string(&self, alloc: Global) -> Result<CompactString, ToCompactStringError> {
        let n: u128 = *self;
        format_by_itoa(alloc, n)
    }
}

impl ToCompactString for i128 {
    ghost shown_text = { signed_decimal };

    ghost IsShort = { λ n. length (signed_decimal n) ≤ INLINE_CAPACITY };

    fn to_compact_string(&self, alloc: Global) -> Result<CompactString, ToCompactStringError> {
        let n: i128 = *self;
        format_by_itoa(alloc, n)
    }
}
