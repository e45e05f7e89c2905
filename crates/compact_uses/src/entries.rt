//! Word counts of a text, and the most frequent words.
ghost use Rattle.std.specs.Prelude.{◌≡◌, ◌<◌, ℕ, length, slice_index, IfOk, IsOk};
ghost use Rattle.compact_uses.specs.Entries.{is_word_kind, word_count, entries_before, IsRanking};

use crate::tokenizer::{Kind, Token};
use std::alloc::{AllocError, Global};
use std::cmp::Reverse;

/// A word, with its count.
#[derive(Clone, Copy)]
pub struct Entry {
    /// The number of tokens that are this word, at least 1.
    pub count: usize,
    /// The number of the name.
    pub name: u32,
}

/// Counts the words among `tokens`, and sorts them by count, the highest first, and then by number. Ignores a token
/// whose number is `names` or more.
///
/// # Errors
///
/// Returns `AllocError` if no memory is found. Never fails if `names` is 0.
///
/// # Examples
///
/// The tokens of `b a a`, where `b` is name 0 and `a` name 2, have the entries 2 of name 2 and 1 of name 0.
pub fn ranking(alloc: Global, tokens: &[Token], names: u32) -> Result<Vec<Entry>, AllocError>
    ensures ranks { IfOk result (λ ranks. IsRanking (entries_before tokens.now names) ranks.items) }
    ensures succeeds { names ≡ 0 → IsOk result }
{
    let mut ranks = entries(alloc, tokens, names)?;
    ranks.sort_by_key(|entry| Reverse(entry.count))?;
    Ok(ranks)
}

/// Counts the words, in the order of their numbers. Never fails if `names` is 0.
fn entries(alloc: Global, tokens: &[Token], names: u32) -> Result<Vec<Entry>, AllocError>
    ensures entries { IfOk result (λ entries. entries.items ≡ entries_before tokens.now names) }
    ensures succeeds { names ≡ 0 → IsOk result }
{
    if names == 0 {
        return Ok(Vec::new(alloc));
    }
    let counts = word_counts(alloc, tokens, names)?;
    let mut entries = Vec::new(alloc);
    for name in 0..names {
        let count = counts[name as usize];
        if count > 0 {
            entries.push(Entry { count, name })?;
        }
    }
    Ok(entries)
}

/// Returns the count of each number as a word.
#[tactic(auto, using(crate::proofs::CountLemmas::count_facts))]
fn word_counts(alloc: Global, tokens: &[Token], names: u32) -> Result<Vec<usize>, AllocError>
    ensures len { IfOk result (λ counts. length counts.items ≡ names) }
    ensures counts { IfOk result (λ counts. (n : ℕ) → n < names
        → slice_index counts.items n ≡ word_count tokens.now n) }
{
    let mut counts = Vec::from_elem(alloc, 0usize, names as usize)?;
    for token in tokens {
        if !is_word_kind(token.kind) {
            continue;
        }
        if token.name >= names {
            continue;
        }
        counts[token.name as usize] += 1;
    }
    Ok(counts)
}

/// Returns `true` for the kind of words.
fn is_word_kind(kind: Kind) -> bool
    ensures { result ≡ is_word_kind kind }
{
    matches!(kind, Kind::Word)
}
