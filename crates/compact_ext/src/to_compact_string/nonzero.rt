//! Strings from `NonZero` integers.
ghost use Rattle.std.specs.Prelude.{◌≤◌, length, ⊤};
ghost use Rattle.std.specs.Fmt.{decimal, signed_decimal};
ghost use Rattle.std.specs.Int.NonZero.{non_zero_u8_get, non_zero_u16_get, non_zero_u32_get, non_zero_u64_get, non_zero_u128_get, non_zero_usize_get, non_zero_i8_get, non_zero_i16_get, non_zero_i32_get, non_zero_i64_get, non_zero_i128_get, non_zero_isize_get};
ghost use Rattle.compact_str.specs.Words.{INLINE_CAPACITY};

use crate::format::ToCompactStringError;
use crate::to_compact_string::ToCompactString;
use compact_str::CompactString;
use std::alloc::Global;
use std::num::{
    NonZeroI8, NonZeroI16, NonZeroI32, NonZeroI64, NonZeroI128, NonZeroIsize, NonZeroU8,
    NonZeroU16, NonZeroU32, NonZeroU64, NonZeroU128, NonZeroUsize,
};

impl ToCompactString for NonZeroU8 {
    ghost shown_text = { λ n. decimal (non_zero_u8_get n) };

    ghost IsShort = { λ _. ⊤ };

    #[inline]
    fn to_compact_string(&self, alloc: Global) -> Result<CompactString, ToCompactStringError> {
        let n: u8 = self.get();
        n.to_compact_string(alloc)
    }
}

impl ToCompactString for NonZeroU16 {
    ghost shown_text = { λ n. decimal (non_zero_u16_get n) };

    ghost IsShort = { λ _. ⊤ };

    #[inline]
    fn to_compact_string(&self, alloc: Global) -> Result<CompactString, ToCompactStringError> {
        let n: u16 = self.get();
        n.to_compact_string(alloc)
    }
}

impl ToCompactString for NonZeroU32 {
    ghost shown_text = { λ n. decimal (non_zero_u32_get n) };

    ghost IsShort = { λ _. ⊤ };

    #[inline]
    fn to_compact_string(&self, alloc: Global) -> Result<CompactString, ToCompactStringError> {
        let n: u32 = self.get();
        n.to_compact_string(alloc)
    }
}

impl ToCompactString for NonZeroU64 {
    ghost shown_text = { λ n. decimal (non_zero_u64_get n) };

    ghost IsShort = { λ _. ⊤ };

    #[inline]
    fn to_compact_string(&self, alloc: Global) -> Result<CompactString, ToCompactStringError> {
        let n: u64 = self.get();
        n.to_compact_string(alloc)
    }
}

impl ToCompactString for NonZeroU128 {
    ghost shown_text = { λ n. decimal (non_zero_u128_get n) };

    ghost IsShort = { λ n. length (decimal (non_zero_u128_get n)) ≤ INLINE_CAPACITY };

    #[inline]
    fn to_compact_string(&self, alloc: Global) -> Result<CompactString, ToCompactStringError> {
        let n: u128 = self.get();
        n.to_compact_string(alloc)
    }
}

impl ToCompactString for NonZeroUsize {
    ghost shown_text = { λ n. decimal (non_zero_usize_get n) };

    ghost IsShort = { λ _. ⊤ };

    #[inline]
    fn to_compact_string(&self, alloc: Global) -> Result<CompactString, ToCompactStringError> {
        let n: usize = self.get();
        n.to_compact_string(alloc)
    }
}

impl ToCompactString for NonZeroI8 {
    ghost shown_text = { λ n. signed_decimal (non_zero_i8_get n) };

    ghost IsShort = { λ _. ⊤ };

    #[inline]
    fn to_compact_string(&self, alloc: Global) -> Result<CompactString, ToCompactStringError> {
        let n: i8 = self.get();
        n.to_compact_string(alloc)
    }
}

impl ToCompactString for NonZeroI16 {
    ghost shown_text = { λ n. signed_decimal (non_zero_i16_get n) };

    ghost IsShort = { λ _. ⊤ };

    #[inline]
    fn to_compact_string(&self, alloc: Global) -> Result<CompactString, ToCompactStringError> {
        let n: i16 = self.get();
        n.to_compact_string(alloc)
    }
}

impl ToCompactString for NonZeroI32 {
    ghost shown_text = { λ n. signed_decimal (non_zero_i32_get n) };

    ghost IsShort = { λ _. ⊤ };

    #[inline]
    fn to_compact_string(&self, alloc: Global) -> Result<CompactString, ToCompactStringError> {
        let n: i32 = self.get();
        n.to_compact_string(alloc)
    }
}

impl ToCompactString for NonZeroI64 {
    ghost shown_text = { λ n. signed_decimal (non_zero_i64_get n) };

    ghost IsShort = { λ _. ⊤ };

    #[inline]
    fn to_compact_string(&self, alloc: Global) -> Result<CompactString, ToCompactStringError> {
        let n: i64 = self.get();
        n.to_compact_string(alloc)
    }
}

impl ToCompactString for NonZeroI128 {
    ghost shown_text = { λ n. signed_decimal (non_zero_i128_get n) };

    ghost IsShort = { λ n. length (signed_decimal (non_zero_i128_get n)) ≤ INLINE_CAPACITY };

    #[inline]
    fn to_compact_string(&self, alloc: Global) -> Result<CompactString, ToCompactStringError> {
        let n: i128 = self.get();
        n.to_compact_string(alloc)
    }
}

impl ToCompactString for NonZeroIsize {
    ghost shown_text = { λ n. signed_decimal (non_zero_isize_get n) };

    ghost IsShort = { λ _. ⊤ };

    #[inline]
    fn to_compact_string(&self, alloc: Global) -> Result<CompactString, ToCompactStringError> {
        let n: isize = self.get();
        n.to_compact_string(alloc)
    }
}
