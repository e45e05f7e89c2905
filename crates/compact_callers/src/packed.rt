//! The packed form in tables of fixed-width rows.
ghost use Rattle.std.specs.Prelude.{◌≡◌, ℕ, List, IfSome, IsSome, IsTrue};
ghost use Rattle.compact_str.specs.Value.{inline, IsInline};
ghost use Rattle.compact_str.specs.Capacity.{inline_placement};
ghost use Rattle.compact_str.specs.Packed.{IsPackedFor};

use compact_str::CompactString;
use std::alloc::Global;

/// Writes a key as an array and reads it back. Returns `None` only if the key is not inline.
#[tactic(auto, using(compact_str::proofs::ForCallers::caller_facts))]
pub fn through_packed_bytes(alloc: Global, key: &CompactString) -> Option<CompactString>
    ensures text { IfSome result (λ copy. copy.text ≡ key.now.text) }
    ensures inline { IfSome result (λ copy. copy.placement ≡ inline_placement) }
    ensures succeeds { IsInline key.now → IsSome result }
{
    let row = key.packed()?;
    CompactString::from_packed(alloc, &row)
}

/// Returns `true` if two keys are inline with the same bytes; then their texts are equal.
#[tactic(auto, using(compact_str::proofs::ForCallers::caller_facts))]
pub fn have_same_bytes(first: &CompactString, second: &CompactString) -> bool
    ensures { IsTrue result → (first.now.text ≡ second.now.text) }
{
    let Some(row) = first.packed() else {
        return false;
    };
    let Some(other) = second.packed() else {
        return false;
    };
    row == other
}

/// Normalizes an array, zeroing the padding. Returns `None` if it holds no text.
#[tactic(auto, using(compact_str::proofs::ForCallers::caller_facts))]
pub fn cleaned(alloc: Global, row: &[u8; 24]) -> Option<[u8; 24]>
    ensures { IfSome result (λ clean. (t : List ℕ) → IsPackedFor row.now t → IsPackedFor clean t) }
{
    let key = CompactString::from_packed(alloc, row)?;
    let Ok(copy) = CompactString::new(alloc, key.as_str()) else {
        return None;
    };
    copy.packed()
}
