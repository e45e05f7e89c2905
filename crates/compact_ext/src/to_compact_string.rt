//! Strings from numbers and other values.
ghost use Rattle.std.specs.Prelude.{◌≡◌, ◌<◌, ℕ, List, IfOk, IfErr, IsOk, OnErr};
ghost use Rattle.compact_str.specs.Words.{INLINE_CAPACITY, IsPlacedAsNew, inline_placement, size, standard_growth};
ghost use Rattle.compact_ext.specs.Shown.{IsFormatReserve};

mod digits;
mod int128;
mod integers;
mod laws;
mod nonzero;
mod texts;

use crate::format::ToCompactStringError;
use compact_str::CompactString;
pub use laws::{numbers_are_short, numbers_go_digit_by_digit};
use std::alloc::Global;

/// A type that converts to a string: the integers, `bool`, `char`, `&str`, `String`, `BoxedStr`, `CowStr` and
/// `CompactString`.
///
/// In a contract `shown_text v` is the text. If `IsShort v` holds, it is inline and the conversion never fails: always
/// for integers of up to 64 bits, `bool` and `char`, else up to 24 bytes.
pub trait ToCompactString {
    /// The characters.
    ghost shown_text: { Self → List ℕ };

    /// Whether the conversion cannot fail.
    ghost IsShort: { Self → Type 0 };

    /// Converts the value to a string, placed as by `CompactString::new`.
    ///
    /// # Errors
    ///
    /// `Reserve` if allocation fails. Never fails for an integer of up to 64 bits, a `bool`, a `char` or up to 24
    /// bytes of text.
    ///
    /// # Examples
    ///
    /// ```
    /// let number = (-12i8).to_compact_string(alloc)?;
    /// assert_eq!(rt; number.as_str(), "-12");
    ///
    /// let least = i64::MIN.to_compact_string(alloc)?;
    /// assert_eq!(rt; least.as_str(), "-9223372036854775808");
    /// assert!(rt; !least.is_heap_allocated());
    /// ```
    fn to_compact_string(&self, alloc: Global) -> Result<CompactString, ToCompactStringError>
        // Placed as by `CompactString::new`, and always inline if the value is short.
        ensures text { IfOk result (λ v. v.text ≡ shown_text self.now) }
        ensures place { IfOk result (IsPlacedAsNew standard_growth) }
        ensures inline { IsShort self.now
            → IfOk result (λ v. v.placement ≡ inline_placement) }

        // Fails only past 24 bytes, never for a short value, and always with `Reserve`.
        ensures succeeds { IsShort self.now → IsOk result }
        ensures allocates { OnErr result (INLINE_CAPACITY < size (shown_text self.now)) }
        ensures err { IfErr result IsFormatReserve };

    /// Another name of `to_compact_string`. See [`to_compact_string`](Self::to_compact_string).
    ///
    /// # Errors
    ///
    /// `Reserve` as from `to_compact_string`.
    #[inline]
    final fn try_to_compact_string(
        &self,
        alloc: Global,
    ) -> Result<CompactString, ToCompactStringError>
    where
        Self: Sized,
        // As `to_compact_string`.
        ensures text { IfOk result (λ v. v.text ≡ shown_text self.now) }
        ensures place { IfOk result (IsPlacedAsNew standard_growth) }
        ensures inline { IsShort self.now
            → IfOk result (λ v. v.placement ≡ inline_placement) }
        ensures succeeds { IsShort self.now → IsOk result }
        ensures allocates { OnErr result (INLINE_CAPACITY < size (shown_text self.now)) }
        ensures err { IfErr result IsFormatReserve }
    {
        self.to_compact_string(alloc)
    }
}
