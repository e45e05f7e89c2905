//! Decoding UTF-8 and UTF-16.
ghost use Rattle.std.specs.Prelude.{◌≡◌, ◌+◌, ◌<◌, ◌++◌, length, OnOk, OnErr};
ghost use Rattle.compact_str.specs.Words.{INLINE_CAPACITY, size, text_of};
ghost use Rattle.compact_str.specs.Room.{IsPlacedBySize};

mod buf;
pub mod error;
pub mod utf16;
mod utf16_block;
mod utf16_run;
pub mod utf8;

use crate::error::ReserveError;
use crate::string::PolicyString;
use compact_repr::{INLINE_CAPACITY, Policy};

/// Replaces an invalid sequence.
const REPLACEMENT: &str = "\u{FFFD}";

/// Appends `text`. On the first allocation also reserves `more` bytes.
#[inline]
#[tactic(auto, using(crate::proofs::DecodedValues::by_size_facts))]
pub fn push_or_reserve<P: Policy>(
    made: &mut PolicyString<P>,
    text: &str,
    more: usize,
) -> Result<(), ReserveError>
    requires { IsPlacedBySize made.old }
    ensures place { OnOk result (IsPlacedBySize made.new) }
    ensures text { OnOk result (made.new.text ≡ made.old.text ++ text_of text.now) }
    ensures allocates { OnErr result (INLINE_CAPACITY < size made.old.text + length text.now) }
    ensures err { OnErr result (made.new ≡ made.old) }
{
    if made.is_heap_allocated() || made.len() + text.len() <= INLINE_CAPACITY {
        return made.push_str(text);
    }
    made.reserve(text.len().saturating_add(more))?;
    made.push_str(text)
}
