//! Values as keys: compared, looked up in a sorted slice and in a map.
ghost use Rattle.std.specs.Prelude.{◌≡◌, ◌↔◌, Some, IsTrue, OnOk, IfOk, IfErr};
ghost use Rattle.std.specs.List.{HoldsAt};
ghost use Rattle.std.specs.List.Sorted.{IsSorted, IsPartitionPoint};
ghost use Rattle.std.specs.Option.{unwrap_or};
ghost use Rattle.std.specs.HashMap.{get};
ghost use Rattle.std.specs.BTreeMap as sorted;
ghost use Rattle.compact_str.specs.Order.{same_text, text_cmp, text_order};

use compact_str::{CompactString, sorted_row_is_searchable};
use std::alloc::AllocFailed;
use std::cmp::Ordering;
use std::collections::{BTreeMap, HashMap};

/// Returns `true` if a word is the keyword.
#[tactic(auto, using(compact_str::proofs::ForCallers::caller_facts))]
pub fn is_keyword(word: &CompactString, keyword: &CompactString) -> bool
    ensures { IsTrue result ↔ (word.now.text ≡ keyword.now.text) }
{
    word == keyword
}

/// Returns `true` if one record sorts before another.
pub fn comes_first(first: &CompactString, second: &CompactString) -> bool
    ensures { IsTrue result ↔ (text_order first.now.text second.now.text ≡ Ordering.Less) }
{
    first < second
}

/// Searches a sorted slice for a word. `Err` is where it could be inserted: the words before are less, those from
/// there on greater.
#[tactic(auto, using(compact_str::proofs::ForCallers::caller_facts))]
pub fn place_of(words: &[CompactString], word: &CompactString) -> Result<usize, usize>
    requires { IsSorted text_cmp words.now }
    ensures found { IfOk result (HoldsAt (λ w. w.text ≡ word.now.text) words.now) }
    ensures absent { IfErr result
        (IsPartitionPoint (λ w. text_cmp w word.now ≡ Ordering.Less)
        (λ w. text_cmp w word.now ≡ Ordering.Greater) words.now) }
{
    sorted_row_is_searchable(words, word);
    words.binary_search(word)
}

/// Counts a word.
pub fn set_count(
    counts: &mut HashMap<CompactString, u32>,
    word: CompactString,
    count: u32,
) -> Result<(), AllocFailed<(CompactString, u32)>>
    ensures { OnOk result (get same_text counts.new word ≡ Some count) }
{
    counts.insert(word, count)?;
    Ok(())
}

/// Returns how often a word was counted, or 0.
pub fn count_of(counts: &HashMap<CompactString, u32>, word: &CompactString) -> u32
    ensures { result ≡ unwrap_or (get same_text counts.now word.now) 0 }
{
    counts.get(word).copied().unwrap_or(0)
}

/// Sets the rank of a word in a sorted table.
pub fn set_rank(
    ranks: &mut BTreeMap<CompactString, u32>,
    word: CompactString,
    rank: u32,
) -> Result<(), AllocFailed<(CompactString, u32)>>
    ensures { OnOk result (sorted.get text_cmp ranks.new word ≡ Some rank) }
{
    ranks.insert(word, rank)?;
    Ok(())
}
