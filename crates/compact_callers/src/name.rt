//! Callers of the interner.
#![tactic(auto, using(compact_str::proofs::ForCallers::caller_facts))]

ghost use Rattle.std.specs.Prelude.{◌≡◌, ◌≤◌, length, slice_get, Some, IfOk};
ghost use Rattle.compact_str.specs.Text.{text_of};

use compact_edit::{InternError, Interner};

/// Interns a name and its value; both are known afterwards.
pub fn pair(names: &mut Interner, name: &str, value: &str) -> Result<(u32, u32), InternError>
    ensures name { IfOk result
        (λ numbers. slice_get names.new numbers.0 ≡ Some (text_of name.now)) }
    ensures value { IfOk result
        (λ numbers. slice_get names.new numbers.1 ≡ Some (text_of value.now)) }
{
    let first = names.intern(name)?;
    let second = names.intern(value)?;
    Ok((first, second))
}

/// Returns the number of a short text that is a known name.
pub fn known(names: &mut Interner, number: u32, text: &str) -> u32
    requires short { length text.now ≤ 24 }
    requires known { slice_get names.old number ≡ Some (text_of text.now) }
    ensures { slice_get names.new result ≡ Some (text_of text.now) }
{
    match names.intern(text) {
        Ok(number) => number,
        Err(_) => unreachable!(),
    }
}

/// Returns the number of a known name, and adds nothing.
pub fn number_of_known(names: &Interner, number: u32, text: &str) -> Option<u32>
    requires { slice_get names.now number ≡ Some (text_of text.now) }
    ensures { result ≡ Some number }
{
    names.number(text)
}
