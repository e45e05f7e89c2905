//! Callers of the tokenizer.
#![tactic(auto, using(compact_str::proofs::ForCallers::caller_facts))]

ghost use Rattle.std.specs.Prelude.{◌≡◌, ◌-◌, ◌≤◌, ℕ, List, [], length, map, flat_map, slice_get, Some, IfOk, IsOk, OnOk, OnErr};
ghost use Rattle.compact_uses.specs.Tokens.{IsTokenized, IsPartlyTokenized, token_text};
ghost use Rattle.compact_uses.specs.declared.tokenizer.Token.{Token};

use compact_edit::{InternError, Interner};
use compact_str::{CompactString, ReserveError};
use compact_uses::tokenize;
use std::alloc::Global;

/// Interns the words and other tokens of a text, and returns how many are new: at most one a character.
///
/// If allocation fails, just the tokens of a prefix have been interned.
pub fn learn(
    alloc: Global,
    names: &mut Interner,
    text: &CompactString,
) -> Result<usize, InternError>
    ensures count { IfOk result (λ count. count ≡ length names.new - length names.old) }
    ensures most { IfOk result (λ count. count ≤ length text.now.text) }
    ensures names { OnOk result ((tokens : List Token)
        × IsTokenized names.old names.new tokens [] text.now.text
        × (flat_map (token_text names.new) tokens ≡ text.now.text)) }
    ensures front { OnErr result (IsPartlyTokenized names.old names.new text.now.text) }
    ensures empty { text.now.text ≡ [] → IsOk result }
{
    let before = names.len();
    tokenize(alloc, names, text)?;
    Ok(names.len().saturating_sub(before))
}

/// Returns the numbers of the tokens of a text, in order. Known names keep their numbers, even on `Err`.
#[tactic(auto)]
pub fn numbers_of(
    alloc: Global,
    names: &mut Interner,
    text: &CompactString,
) -> Result<Vec<u32>, InternError>
    ensures numbers { IfOk result (λ numbers. (tokens : List Token)
        × IsTokenized names.old names.new tokens [] text.now.text
        × (flat_map (token_text names.new) tokens ≡ text.now.text)
        × (numbers.items ≡ map (λ token. token.name) tokens)) }
    ensures kept { (n : ℕ) (name : List ℕ)
        → slice_get names.old n ≡ Some name → slice_get names.new n ≡ Some name }
{
    let tokens = tokenize(alloc, names, text)?;
    match tokens.iter().map(|token| token.name).collect(alloc) {
        Ok(numbers) => Ok(numbers),
        Err(_) => Err(InternError::Reserve(ReserveError)),
    }
}
