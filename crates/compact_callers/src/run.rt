//! Callers of `run`, and a growth policy.
ghost use Rattle.std.specs.Prelude.{◌≡◌, ◌⊎◌, ◌+◌, [], Some, vec_len, IfOk, OnOk, OnErr};
ghost use Rattle.std.specs.Bool.{OnTrue};
ghost use Rattle.compact_str.specs.Text.{text_of};
ghost use Rattle.compact_str.specs.Capacity.{IsLawful};
ghost use Rattle.compact_str.specs.Calls.{clear, push_str};

use compact_edit::{Edit, Reply, run};
use compact_str::{CompactString, Policy, PolicyString, ReserveError};
use std::alloc::Global;

/// Encloses a text in brackets by two edits, and returns `true` if both succeed.
pub fn bracket(alloc: Global, value: &mut CompactString) -> Result<bool, ReserveError>
    ensures { OnErr result (value.new ≡ value.old) }
{
    let edits = [Edit::Insert(0, '['), Edit::Push(']')];
    let mut replies = Vec::new(alloc);
    run(value, &edits, &mut replies)?;
    Ok(matches!(replies[0], Reply::Done) && matches!(replies[1], Reply::Done))
}

/// Overwrites a value with `text` by two edits, appending their replies to `replies`. Leaves it empty if the second
/// fails.
pub fn rewrite<'a, P: Policy + 'a>(
    value: &mut PolicyString<P>,
    text: &'a str,
    replies: &mut Vec<Reply<P>>,
) -> Result<(), ReserveError>
    ensures count { OnOk result (vec_len replies.new ≡ vec_len replies.old + 2) }
    ensures text { OnOk result ((value.new.text ≡ []) ⊎ (value.new.text ≡ text_of text.now)) }
    ensures err { OnErr result (value.new ≡ value.old) }
{
    let edits: [Edit<'a, P>; 2] = [Edit::Clear, Edit::PushStr(text)];
    run(value, &edits, replies)
}

/// Doubles the capacity at each growth, from 64 bytes on.
pub struct Doubling;

impl Policy for Doubling {
    ghost use Rattle.std.proofs.Common.{refl};
    ghost use Rattle.compact_str.specs.Policies.{IsLawful-test};

    const MIN_HEAP: usize = 64;

    const NUM: usize = 2;

    const DEN: usize = 1;

    ghost MIN_HEAP = { 64 };

    ghost NUM = { 2 };

    ghost DEN = { 1 };

    ghost growth = { record { least = 64; numerator = 2; denominator = 1 } };

    ghost is_growth = { refl };

    ghost lawful = { IsLawful-test _ refl };
}

/// Overwrites a value with `text` under `Doubling`, and returns `true` if there was memory.
pub fn refill(
    alloc: Global,
    value: &mut PolicyString<Doubling>,
    text: &str,
) -> Result<bool, ReserveError>
    ensures { IfOk result
        (λ done. OnTrue done
        (push_str ⟦<Doubling as Policy>⟧.growth (clear value.old) (text_of text.now)
        ≡ Some value.new)) }
{
    let edits = [Edit::Clear, Edit::PushStr(text)];
    let mut replies = Vec::new(alloc);
    run(value, &edits, &mut replies)?;
    match replies.pop() {
        Some(Reply::Done) => Ok(true),
        _ => Ok(false),
    }
}
