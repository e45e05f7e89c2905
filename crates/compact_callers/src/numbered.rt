//! Numbers of words that are interned one by one.
#![tactic(auto, using(compact_edit::proofs::ForCallers::intern_loop_facts))]

ghost use Rattle.std.specs.Prelude.{◌≡◌, ◌<◌, ℕ, List, All, length, slice_get, Some, IfOk};
ghost use Rattle.compact_edit.specs.Names.{AreNumbersOf, texts_of};

use compact_edit::{InternError, Interner};
use std::alloc::Global;

/// Interns words in turn, and returns their numbers.
pub fn numbers_in_turn(
    alloc: Global,
    names: &mut Interner,
    words: &[&str],
) -> Result<Vec<u32>, InternError>
    ensures numbers { IfOk result
        (λ numbers. AreNumbersOf names.new (texts_of words.now) numbers.items) }
    ensures below { IfOk result (λ numbers. All (λ n. n < length names.new) numbers.items) }
    ensures kept { (n : ℕ) (name : List ℕ)
        → slice_get names.old n ≡ Some name → slice_get names.new n ≡ Some name }
{
    let mut numbers = Vec::new(alloc);
    for word in words {
        numbers.push(names.intern(word)?)?;
    }
    Ok(numbers)
}
