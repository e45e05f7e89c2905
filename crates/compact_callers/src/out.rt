//! Values converted to `String` and bytes, and made from JSON.
ghost use Rattle.std.specs.Prelude.{◌≡◌, ◌++◌, IfOk, IfErr, IfSome, IsOk, string_bytes};
ghost use Rattle.serde_json.specs.View.{view as json_view};
ghost use Rattle.serde_json.specs.Data.{string as json_string};
ghost use Rattle.compact_str.specs.Text.{text_of, utf8};
ghost use Rattle.compact_str.specs.Value.{IsHeap};

use compact_str::{CompactString, FromJsonError, Refused, ReserveError};
use serde_json::Value;
use std::alloc::Global;

/// Joins two fields into a `String`.
pub fn finished_line(alloc: Global, first: &str, second: &str) -> Result<String, ReserveError>
    ensures { IfOk result
        (λ s. text_of (string_bytes s) ≡ text_of first.now ++ text_of second.now) }
{
    let mut line = CompactString::new(alloc, first)?;
    line.push_str(second)?;
    Ok(line.into_string()?)
}

/// Converts a line to bytes, or returns it if allocation fails, which it never does for a line on the heap.
pub fn bytes_of_line(line: CompactString) -> Result<Vec<u8>, Refused<CompactString>>
    ensures text { IfOk result (λ v. text_of v.items ≡ line.text) }
    ensures stays { IfErr result (λ back. back.value ≡ line) }
    ensures succeeds { IsHeap line → IsOk result }
{
    line.into_vec()
}

/// Returns the name in a JSON value, or `None` if that is not a string.
pub fn name_of(alloc: Global, value: &Value) -> Result<Option<CompactString>, ReserveError>
    ensures { IfOk result
        (λ name. IfSome name (λ v. json_view value.now ≡ json_string (utf8 v.text))) }
{
    match CompactString::from_json(alloc, value) {
        Ok(name) => Ok(Some(name)),
        Err(FromJsonError::NotAString) => Ok(None),
        Err(FromJsonError::Reserve(error)) => Err(error),
    }
}
