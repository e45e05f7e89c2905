//! Values moved out with `take`, in small vectors, and made from bytes and boxes without a copy.
#![tactic(auto, using(compact_str::proofs::ForCallers::caller_facts))]

ghost use Rattle.std.specs.Prelude.{◌≡◌, [], ◌∷◌, IfOk, IfErr, OnOk, OnErr, IsOk, length};
ghost use Rattle.std.specs.Str.{IsUtf8};
ghost use Rattle.std.specs.String.{from_utf8_error_vec};
ghost use Rattle.std.specs.Box.{boxed_str_bytes};
ghost use Rattle.compact_str.specs.Text.{text_of, utf8};

use compact_str::CompactString;
use smallvec::SmallVec;
use std::alloc::{AllocError, AllocFailed, Global};
use std::boxed::BoxedStr;
use std::collections::HashMap;
use std::convert::AsSlice;
use std::mem;
use std::string::FromUtf8Error;

/// Takes the line, leaving an empty one.
pub fn take_line(line: &mut CompactString) -> Result<CompactString, AllocError>
    ensures taken { IfOk result (λ v. v ≡ line.old) }
    ensures left { OnOk result (line.new.text ≡ []) }
    ensures unchanged { OnErr result (line.new ≡ line.old) }
{
    mem::try_take(line)
}

/// Returns a list of two names; up to four need no allocation.
pub fn small_list_of(
    alloc: Global,
    first: CompactString,
    second: CompactString,
) -> Result<SmallVec<CompactString, 4>, AllocFailed<CompactString>>
    ensures items { IfOk result (λ row. row.items ≡ first ∷ second ∷ []) }
    ensures succeeds { IsOk result }
{
    let mut row = SmallVec::new(alloc);
    row.push(first)?;
    row.push(second)?;
    Ok(row)
}

/// Appends to the note of a number, which is empty at first.
pub fn append_note(
    notes: &mut HashMap<u32, CompactString>,
    id: u32,
    text: &str,
) -> Result<(), AllocError> {
    let Ok(entry) = notes.entry(id) else {
        return Err(AllocError);
    };
    Ok(entry.or_default().push_str(text)?)
}

/// Converts bytes to a value, reusing the buffer. Returns bytes that are not valid UTF-8.
pub fn text_in(bytes: Vec<u8>) -> Result<CompactString, FromUtf8Error>
    ensures text { IfOk result (λ v. v.text ≡ text_of bytes.items) }
    ensures valid { OnOk result (IsUtf8 bytes.items) }
    ensures succeeds { IsUtf8 bytes.items → IsOk result }
    ensures err { IfErr result (λ e. from_utf8_error_vec e ≡ bytes) }
{
    CompactString::try_from(bytes)
}

/// Converts a box, reusing the buffer.
pub fn unboxed(text: BoxedStr) -> CompactString
    ensures { result.text ≡ text_of (boxed_str_bytes text) }
{
    CompactString::from(text)
}

/// Counts the bytes of a slice.
fn count_in<T: AsSlice<u8>>(bytes: &T) -> usize
    ensures { result ≡ length (T.items bytes.now) }
{
    bytes.as_slice().len()
}

/// Calls `count_in` on a value.
pub fn lent_bytes(value: &CompactString) -> usize
    ensures { result ≡ length (utf8 value.now.text) }
{
    count_in(value)
}

/// Requires `Send` and `Sync`.
fn for_threads<T: Send + Sync>(value: T) -> T
    ensures { result ≡ value }
{
    value
}

/// Passes a value to `for_threads`.
pub fn shared(value: CompactString) -> CompactString
    ensures { result ≡ value }
{
    for_threads(value)
}
