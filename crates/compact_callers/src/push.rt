//! Texts built by many pushes, and bounds on the bytes moved under a policy.
ghost use Rattle.std.specs.Prelude.{◌≡◌, ◌*◌, ◌/◌, ◌≤◌, flat_map, max, IfSome};
ghost use Rattle.compact_str.specs.Text.{size, text_of};

use compact_edit::{PushReport, run_pushes};
use compact_str::{CompactString, Standard};
use compact_testing::policies::Double;
use std::alloc::Global;

/// Joins parts and returns the line with the bytes moved: at most five times its length. Returns `None` if a push
/// fails.
pub fn joined(alloc: Global, parts: &[&str]) -> Option<(CompactString, u64)>
    ensures text { IfSome result
        (λ line. line.0.text ≡ flat_map (λ part. text_of part.now) parts.now) }
    ensures moved { IfSome result (λ line. line.1 ≤ 5 * size line.0.text) }
    ensures capacity { IfSome result
        (λ line. line.0.placement.capacity ≤ max 32 (3 * size line.0.text / 2)) }
{
    let report = run_pushes::<Standard>(alloc, parts);
    if report.refused > 0 {
        return None;
    }
    Some((report.value, report.moved))
}

/// Joins parts in buffers that double. Moves at most three times the line's length; the capacity is at most twice the
/// length, or 32 bytes. Parts whose push fails are missing.
pub fn joined_in_doubled_room(alloc: Global, parts: &[&str]) -> PushReport<Double>
    ensures text { result.refused ≡ 0
        → result.value.text ≡ flat_map (λ part. text_of part.now) parts.now }
    ensures moved { result.moved ≤ 3 * size result.value.text }
    ensures capacity { result.value.placement.capacity ≤ max 32 (2 * size result.value.text) }
{
    run_pushes(alloc, parts)
}
