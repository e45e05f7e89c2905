//! Map lookups by `&str`, without making a value.
#![tactic(auto, using(compact_str::proofs::ForCallers::caller_facts))]

ghost use Rattle.std.specs.Prelude.{◌≡◌};
ghost use Rattle.std.specs.Option.{unwrap_or};
ghost use Rattle.std.specs.HashMap as hashed;
ghost use Rattle.std.specs.BTreeMap as sorted;
ghost use Rattle.indexmap.specs.IndexMap as ordered;
ghost use Rattle.std.specs.Str.{bytes_eq};
ghost use Rattle.std.specs.Ordering.{nat_cmp};
ghost use Rattle.std.specs.Cmp.Lexicographic.{slice_cmp};
ghost use Rattle.compact_str.specs.Text.{utf8};

use compact_str::CompactString;
use indexmap::IndexMap;
use std::collections::{BTreeMap, BTreeSet, HashMap, HashSet};

/// Returns how often a word was counted.
pub fn count_by_text(counts: &HashMap<CompactString, u32>, word: &str) -> u32
    ensures { result ≡ unwrap_or
        (hashed.get_by (λ k. bytes_eq word.now (utf8 k.text)) counts.now) 0 }
{
    counts.get(word).copied().unwrap_or(0)
}

/// Returns the count of `"total"`.
pub fn total(counts: &HashMap<CompactString, u32>) -> u32 {
    counts.get("total").copied().unwrap_or(0)
}

/// Removes a word and its count.
pub fn forget(counts: &mut HashMap<CompactString, u32>, word: &str) {
    counts.remove(word);
}

/// Returns the rank of a word.
pub fn rank_by_text(ranks: &BTreeMap<CompactString, u32>, word: &str) -> u32
    ensures { result ≡ unwrap_or
        (sorted.get_by (λ k. slice_cmp nat_cmp word.now (utf8 k.text)) ranks.now) 0 }
{
    ranks.get(word).copied().unwrap_or(0)
}

/// Returns `true` if a word is in both sets.
pub fn is_in_both(
    words: &HashSet<CompactString>,
    sorted_words: &BTreeSet<CompactString>,
    word: &str,
) -> bool {
    words.contains(word) && sorted_words.contains(word)
}

/// Returns the index of a word.
pub fn place_by_text(row: &IndexMap<CompactString, u32>, word: &str) -> Option<usize> {
    row.get_index_of(word)
}

/// Returns the number stored for a word.
pub fn held_by_text(row: &IndexMap<CompactString, u32>, word: &str) -> u32
    ensures { result ≡ unwrap_or (ordered.get_by (λ k. bytes_eq word.now (utf8 k.text)) row.now) 0 }
{
    row.get(word).copied().unwrap_or(0)
}
