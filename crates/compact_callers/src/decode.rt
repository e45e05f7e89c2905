//! Decoding bytes from outside.
ghost use Rattle.std.specs.Prelude.{◌≡◌, ◌↔◌, ◌≤◌, length, not, filter, IsTrue, IsOk, IfOk};
ghost use Rattle.std.specs.Str.{IsUtf8, is_utf8};
ghost use Rattle.compact_str.specs.Text.{size};
ghost use Rattle.compact_str.specs.Utf8Text.{utf8_lossy_text};

use compact_str::{CompactString, FromUtf8Error, ReserveError};
use std::alloc::Global;

/// Counts the invalid byte strings of a list. One whose allocation fails is not counted.
#[tactic(auto)]
pub fn invalid_count(alloc: Global, rows: &[&[u8]]) -> usize
    ensures { result ≡ length (filter (λ row. not (is_utf8 row.now)) rows.now) }
{
    rows.iter().filter(|row| is_invalid(alloc, **row)).count()
}

/// Returns `true` if the bytes are not valid UTF-8.
#[tactic(auto, using(compact_str::proofs::ForCallers::decoding_facts))]
fn is_invalid(alloc: Global, bytes: &[u8]) -> bool
    ensures { result ≡ not (is_utf8 bytes.now) }
{
    matches!(
        CompactString::from_utf8(alloc, bytes),
        Err(FromUtf8Error::Utf8 { .. })
    )
}

/// Decodes a name, replacing invalid sequences, and returns whether there were any.
#[tactic(auto, using(compact_str::proofs::ForCallers::caller_facts, compact_str::proofs::ForCallers::decoding_facts))]
pub fn decoded_name(alloc: Global, bytes: &[u8]) -> Result<(CompactString, bool), ReserveError>
    ensures text { IfOk result (λ answer. answer.0.text ≡ utf8_lossy_text bytes.now) }
    ensures invalid { IfOk result (λ answer. IsTrue answer.1 ↔ ¬ (IsUtf8 bytes.now)) }
    ensures succeeds { size (utf8_lossy_text bytes.now) ≤ 24 → IsOk result }
{
    match CompactString::from_utf8(alloc, bytes) {
        Ok(name) => Ok((name, false)),
        Err(FromUtf8Error::Reserve(error)) => Err(error),
        Err(FromUtf8Error::Utf8 { .. }) => {
            let name = CompactString::from_utf8_lossy(alloc, bytes)?;
            Ok((name, true))
        }
    }
}

/// Copies a text by way of its bytes; never fails as invalid.
#[tactic(auto, using(compact_str::proofs::ForCallers::caller_facts, compact_str::proofs::ForCallers::decoding_facts))]
pub fn through_bytes(alloc: Global, value: &CompactString) -> Result<CompactString, ReserveError>
    ensures text { IfOk result (λ copy. copy.text ≡ value.now.text) }
    ensures succeeds { size value.now.text ≤ 24 → IsOk result }
{
    match CompactString::from_utf8(alloc, value.as_bytes()) {
        Ok(copy) => Ok(copy),
        Err(FromUtf8Error::Reserve(error)) => Err(error),
        Err(FromUtf8Error::Utf8 { .. }) => unreachable!(),
    }
}
