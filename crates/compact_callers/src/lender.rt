//! A guard over a `CompactString` that a fallible call returns, and the value after the guard is dropped.
//!
//! `Emptying` plays a library's guard, whose drop changes the value, as a drain's does. The functions below it are its
//! callers.
ghost use Rattle.std.specs.Prelude.{◌≡◌, ◌<◌, [], true, false, Ok, IfOk, OnOk, OnErr, IfSome, IfNone};
ghost use Rattle.std.specs.Borrow.{sem, RestsIfErr};
ghost use Rattle.compact_str.specs.Text.{text_of, size};
ghost use Rattle.compact_str.specs.Calls.{clear};
ghost use Rattle.compact_str.specs.contracts.string.PolicyString.{the_row};

use compact_str::{CompactString, Policy, PolicyString};

/// Shows a text, and removes it when dropped.
pub struct Emptying<'a, P: Policy> {
    value: &'a mut PolicyString<P>,
}

impl<P: Policy> Drop for Emptying<'_, P> {
    fn drop(self)
        ensures { self.exit.0.now ≡ clear self.entry.value.now }
    {
        let Emptying { value } = self;
        value.clear();
    }
}

/// The error for more bytes than allowed.
#[derive(Drop)]
pub struct TooLong {
    len: usize,
}

/// Lends `value` to be emptied. Fails, leaving it unchanged, if it has more than `most` bytes.
fn lend_to_empty<P: Policy>(
    value: &mut PolicyString<P>,
    most: usize,
) -> Result<Emptying<'_, P>, TooLong>
    ensures* refused { sem 𝓛
        (RestsIfErr (the_row P.row P.Policy) value.entry (λ guard. guard.value.ghost_name) result
        (λ v. v ≡ value.old)) }
    ensures same_reference { IfOk result
        (λ guard. guard.value.ghost_name ≡ value.entry.ghost_name) }
    ensures text { IfOk result (λ guard. guard.value.now ≡ value.old) }
    ensures len { OnErr result (most < size value.old.text) }
{
    let len = value.len();
    if most < len {
        return Err(TooLong { len });
    }
    Ok(Emptying { value })
}

/// Empties a value, by `?`, and returns the length it had.
pub fn take_out(value: &mut CompactString, most: usize) -> Result<usize, TooLong>
    ensures len { IfOk result (λ len. len ≡ size value.old.text) }
    ensures cleared { OnOk result (value.new ≡ clear value.old) }
    ensures refused { OnErr result ((value.new ≡ value.old) × (most < size value.old.text)) }
{
    let guard = lend_to_empty(value, most)?;
    let len = guard.value.len();
    drop(guard);
    Ok(len)
}

/// Empties the value without naming the guard, then writes into it.
pub fn start_anew(value: &mut CompactString, text: &str) -> Result<bool, TooLong>
    ensures text { OnOk result (result ≡ Ok true → value.new.text ≡ text_of text.now) }
    ensures refused { OnErr result (100 < size value.old.text) }
{
    drop(lend_to_empty(value, 100)?);
    Ok(value.push_str(text).is_ok())
}

/// Empties an owned value, by `match`.
pub fn emptied(mut value: CompactString, most: usize) -> Result<CompactString, TooLong>
    ensures cleared { IfOk result (λ v. v ≡ clear value) }
    ensures refused { OnErr result (most < size value.text) }
{
    match lend_to_empty(&mut value, most) {
        Ok(guard) => drop(guard),
        Err(refusal) => return Err(refusal),
    }
    Ok(value)
}

/// Empties a value, by `let else`. Leaves it unchanged if that fails.
pub fn try_to_empty(value: &mut CompactString, most: usize) -> bool
    ensures yes { result ≡ true → value.new.text ≡ [] }
    ensures no { result ≡ false → (value.new ≡ value.old) × (most < size value.old.text) }
{
    let Ok(guard) = lend_to_empty(value, most) else {
        return false;
    };
    drop(guard);
    true
}

/// Lends `value` to be emptied, unless it is empty.
fn lend_unless_empty<P: Policy>(value: &mut PolicyString<P>) -> Option<Emptying<'_, P>>
    ensures same_reference { IfSome result
        (λ guard. guard.value.ghost_name ≡ value.entry.ghost_name) }
    ensures text { IfSome result (λ guard. guard.value.now ≡ value.old) }
    ensures none { IfNone result (value.old.text ≡ []) }
{
    if value.is_empty() {
        return None;
    }
    Some(Emptying { value })
}

/// Empties a value, by `if let`, and returns `true` if it had a text.
pub fn was_emptied(value: &mut CompactString) -> bool
    ensures yes { result ≡ true → value.new ≡ clear value.old }
    ensures no { result ≡ false → value.old.text ≡ [] }
{
    if let Some(guard) = lend_unless_empty(value) {
        drop(guard);
        return true;
    }
    false
}
