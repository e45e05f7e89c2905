//! Repeated pushes, with a count of the bytes moved.
ghost use Rattle.std.specs.Prelude.{◌≡◌, ◌+◌, ◌-◌, ◌*◌, ◌/◌, ◌≤◌, flat_map, Some, max, IfOk, OnOk, OnErr, IsTrue};
ghost use Rattle.compact_str.specs.Text.{size, text_of};
ghost use Rattle.compact_str.specs.Calls.{push_str, push_str_allocates};
ghost use Rattle.compact_str.specs.Words.{INLINE_CAPACITY};
ghost use Rattle.compact_edit.specs.Pushes.{PushesTo, bytes_moved_by_step};

use compact_str::{Policy, PolicyString, ReserveError};
use std::alloc::Global;

/// The result of [`run_pushes`].
#[derive(Drop)]
pub struct PushReport<P: Policy> {
    /// The value, with the texts of all pushes that succeeded.
    pub value: PolicyString<P>,
    /// The number of bytes moved: the sum of the lengths before each push that changed the place or the capacity.
    pub moved: u64,
    /// The number of pushes that failed.
    pub refused: usize,
}

/// Pushes each text onto an empty value, in order. A failed push leaves the string unchanged; the next one is still
/// tried. Only a push that allocates can fail, so none does if the texts have at most 24 bytes together.
///
/// For a policy that grows by p/q from at least h bytes, and N bytes in the end, `(p - q) * moved` is at most
/// `(p + q) * N`, and the capacity at most the greater of h and `p * N / q`. Under `Standard`, `moved` is at most five
/// times N.
///
/// # Examples
///
/// ```
/// let texts = ["24 bytes, inline storage", "!", "twelve bytes"];
/// let report = run_pushes::<Standard>(alloc, &texts);
/// assert_eq!(rt; report.value.as_str(), "24 bytes, inline storage!twelve bytes");
/// assert_eq!(rt; report.value.capacity(), 37);
/// assert_eq!(rt; report.moved, 24 + 25);
/// assert_eq!(rt; report.refused, 0);
/// ```
pub fn run_pushes<P: Policy>(alloc: Global, texts: &[&str]) -> PushReport<P>
    // The value and the two counts are those of the pushes, one by one.
    ensures run { PushesTo P P.growth texts.now result.value result.moved result.refused }
    ensures text { result.refused ≡ 0
        → result.value.text ≡ flat_map (λ text. text_of text.now) texts.now }

    // The bytes moved and the capacity are at most proportional to the final length.
    ensures moved { (P.growth.numerator - P.growth.denominator) * result.moved
        ≤ (P.growth.numerator + P.growth.denominator) * size result.value.text }
    ensures capacity { result.value.placement.capacity
        ≤ max P.growth.least (P.growth.numerator * size result.value.text / P.growth.denominator) }

    // No push fails if all texts fit inline together.
    ensures succeeds { size (flat_map (λ text. text_of text.now) texts.now) ≤ INLINE_CAPACITY
        → result.refused ≡ 0 }
{
    let mut value = PolicyString::<P>::default(alloc);
    let mut moved = 0;
    let mut refused = 0;
    for text in texts {
        match push_and_count(&mut value, text) {
            Ok(bytes) => moved += bytes,
            Err(_) => refused += 1,
        }
    }
    PushReport {
        value,
        moved,
        refused,
    }
}

/// Pushes a text, and returns the number of bytes moved.
///
/// Compares only the capacities: a push that changes the place changes the capacity too.
#[tactic(auto, using(compact_str::proofs::Functions::functions))]
fn push_and_count<P: Policy>(value: &mut PolicyString<P>, text: &str) -> Result<u64, ReserveError>
    ensures ok { OnOk result (push_str P.growth value.old (text_of text.now) ≡ Some value.new) }
    ensures bytes { IfOk result (λ bytes. bytes ≡ bytes_moved_by_step value.old value.new) }
    ensures allocates { OnErr result (IsTrue (push_str_allocates value.old (text_of text.now))) }
    ensures err { OnErr result (value.new ≡ value.old) }
{
    let len = value.len();
    let capacity = value.capacity();
    value.push_str(text)?;
    if value.capacity() == capacity {
        return Ok(0);
    }
    Ok(len as u64)
}
