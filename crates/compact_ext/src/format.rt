//! Strings from formats.
ghost use Rattle.std.specs.Prelude.{◌≡◌, ◌+◌, ◌<◌, ◌++◌, IfOk, IfSome, IsTrue, length, OnOk, OnErr};
ghost use Rattle.compact_str.specs.Text.{text_of, utf8};
ghost use Rattle.compact_str.specs.Output.{AppendsUtf8};
ghost use Rattle.compact_str.specs.Room.{IsPlacedBySize};
ghost use Rattle.compact_str.specs.Words.{INLINE_CAPACITY, size};

use compact_str::{CompactString, INLINE_CAPACITY, ReserveError};
use std::alloc::Global;
use std::fmt;
use std::fmt::{Display, Write};
use thiserror::Error;

/// The bytes of room after the text that moves to the heap.
const MORE: usize = 32;

/// The error of `format_compact!` and `to_compact_string`.
#[derive(Clone, Copy, Debug, PartialEq, Error)]
pub enum ToCompactStringError {
    /// Allocation failed.
    #[error("{0}")]
    Reserve(ReserveError),
    /// A `Display` returned an error.
    #[error("{0}")]
    Fmt(fmt::Error),
}

impl From<ReserveError> for ToCompactStringError {
    ghost use Rattle.compact_ext.specs.declared.format.ToCompactStringError.TheVariants.{Reserve};

    ghost from_gives = { λ e error. error ≡ Reserve e };

    /// The case `Reserve`.
    fn from(error: ReserveError) -> Self {
        ToCompactStringError::Reserve(error)
    }
}

impl From<fmt::Error> for ToCompactStringError {
    ghost use Rattle.compact_ext.specs.declared.format.ToCompactStringError.TheVariants.{Fmt};

    ghost from_gives = { λ e error. error ≡ Fmt e };

    /// The case `Fmt`.
    fn from(error: fmt::Error) -> Self {
        ToCompactStringError::Fmt(error)
    }
}

/// A string being written, and whether a write failed: a `Display` may ignore that and continue.
#[derive(Drop)]
struct Collector {
    value: CompactString,
    is_refused: bool,
    ghost fitted: { IsPlacedBySize value },
}

impl Write for Collector {
    ghost write_str_gives = { λ c bytes d. AppendsUtf8 c.value.text bytes d.value.text };

    #[inline]
    fn write_str(&mut self, s: &str) -> fmt::Result
        ensures ok { OnOk result (AppendsUtf8 self.old.value.text s.now self.new.value.text) }
        ensures kept { OnOk result (self.new.is_refused ≡ self.old.is_refused) }
        ensures allocates { OnErr result
            (INLINE_CAPACITY < size self.old.value.text + length s.now) }
        ensures err { OnErr result
            ((self.new.value ≡ self.old.value) × IsTrue self.new.is_refused) }
    {
        let pushed = if s.len() > INLINE_CAPACITY {
            push_with_room(&mut self.value, s)
        } else {
            self.value.push_str(s)
        };
        match pushed {
            Ok(()) => Ok(()),
            Err(ReserveError) => {
                self.is_refused = true;
                Err(fmt::Error)
            }
        }
    }
}

/// Appends a `text` of more than 24 bytes. If it is the first on the heap, the buffer gets room for 32 bytes more, so that a
/// short end needs no second one.
#[inline(never)]
#[tactic(auto, using(compact_str::proofs::DecodedValues::by_size_facts))]
fn push_with_room(value: &mut CompactString, text: &str) -> Result<(), ReserveError>
    requires fitted { IsPlacedBySize value.old }
    requires long { INLINE_CAPACITY < length text.now }
    ensures place { OnOk result (IsPlacedBySize value.new) }
    ensures text { OnOk result (value.new.text ≡ value.old.text ++ text_of text.now) }
    ensures allocates { OnErr result (INLINE_CAPACITY < size value.old.text + length text.now) }
    ensures err { OnErr result (value.new ≡ value.old) }
{
    if !value.is_heap_allocated() {
        value.reserve(text.len().saturating_add(MORE))?;
    }
    value.push_str(text)
}

/// Displays `shown` into a new string, for `format_compact!`. The result is inline up to 24 bytes, else on the heap.
///
/// # Errors
///
/// - `Reserve` if allocation fails, even if `shown` ignores it.
/// - `Fmt` if `shown` itself fails.
///
/// What was written is dropped. No clause says when it succeeds: the contract of a `Display` does not.
///
/// # Examples
///
/// ```
/// let price = collect_display(alloc, format_args!("{} €", 12))?;
/// assert_eq!(rt; price.as_str(), "12 €");
/// ```
#[inline]
#[tactic(auto, using(compact_text::proofs::TextFacts::text_facts, crate::proofs::Facts::format_facts))]
pub fn collect_display<D: Display + Drop>(
    alloc: Global,
    shown: D,
) -> Result<CompactString, ToCompactStringError>
    // Returns all that was written, if the contract of `D` says what that is.
    ensures text { IfOk result (λ v. IfSome (D.output shown) (λ bytes. v.text ≡ text_of bytes)) }
    ensures bytes { IfOk result (λ v. IfSome (D.output shown) (λ bytes. utf8 v.text ≡ bytes)) }
    ensures place { IfOk result IsPlacedBySize }
{
    let mut collector = Collector {
        value: CompactString::default(alloc),
        is_refused: false,
    };
    let written = collector.write(shown);
    if collector.is_refused {
        return Err(ToCompactStringError::Reserve(ReserveError));
    }
    written?;
    Ok(collector.value)
}

/// Formats into a new string, like `format!`.
///
/// # Errors
///
/// As from `collect_display`.
///
/// # Examples
///
/// ```
/// let price = format_compact!(in alloc; "{:04} €", 42)?;
/// assert_eq!(rt; price.as_str(), "0042 €");
/// ```
#[macro_export]
macro_rules! format_compact {
    (in $alloc:expr; $($arguments:tt)*) => {
        $crate::collect_display($alloc, format_args!($($arguments)*))
    };
}
