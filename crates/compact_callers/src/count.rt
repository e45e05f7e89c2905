//! Word counts in maps, and lookups by text after a change to a map or set.
#![tactic(auto, using(compact_str::proofs::TextKeys::map_facts))]

ghost use Rattle.std.specs.Prelude.{◌≡◌, ℕ, List, Some, None, IfOk, OnOk, codes, ◌||◌, if◌then◌else◌, bytes_eq, count_by, unwrap_or};
ghost use Rattle.std.specs.Map.{update};
ghost use Rattle.compact_str.specs.Text.{utf8};
ghost use Rattle.compact_str.specs.HashedKeys as hashed;
ghost use Rattle.compact_str.specs.SortedKeys as sorted;

use compact_str::{CompactString, ReserveError};
use indexmap::{IndexMap, IndexSet};
use std::alloc::{AllocFailed, Global};
use std::collections::{BTreeMap, BTreeSet, HashMap, HashSet};

/// Returns how often each word is among `words`.
pub fn word_counts(
    alloc: Global,
    words: &[&str],
) -> Result<BTreeMap<CompactString, u64>, ReserveError>
    ensures { IfOk result (λ counts. (word : List ℕ) →
        unwrap_or (sorted.get_by_text counts word) 0
        ≡ count_by (λ w. bytes_eq word w.now) words.now) }
{
    let mut counts = BTreeMap::new(alloc);
    for word in words {
        *counts.entry(CompactString::new(alloc, word)?)?.or_default() += 1;
    }
    Ok(counts)
}

/// `word_counts` in a `HashMap`.
pub fn hashed_word_counts(
    alloc: Global,
    words: &[&str],
) -> Result<HashMap<CompactString, u64>, ReserveError>
    ensures { IfOk result (λ counts. (word : List ℕ) →
        unwrap_or (hashed.get_by_text counts word) 0
        ≡ count_by (λ w. bytes_eq word w.now) words.now) }
{
    let mut counts = HashMap::new(alloc);
    for word in words {
        let count = counts.get(*word).copied().unwrap_or(0);
        counts.insert(CompactString::new(alloc, word)?, count + 1)?;
    }
    Ok(counts)
}

/// `word_counts` in the order of first occurrences.
pub fn ordered_word_counts(
    alloc: Global,
    words: &[&str],
) -> Result<IndexMap<CompactString, u64>, ReserveError>
    ensures { IfOk result (λ counts. (word : List ℕ) →
        unwrap_or (hashed.get_by_text counts word) 0
        ≡ count_by (λ w. bytes_eq word w.now) words.now) }
{
    let mut counts = IndexMap::new(alloc);
    for word in words {
        *counts.entry(CompactString::new(alloc, word)?)?.or_insert(0) += 1;
    }
    Ok(counts)
}

/// Sets the price of one article only.
pub fn set_price(
    prices: &mut HashMap<CompactString, u64>,
    article: CompactString,
    price: u64,
) -> Result<(), AllocFailed<(CompactString, u64)>>
    ensures { OnOk result ((bs : List ℕ) → hashed.get_by_text prices.new bs
        ≡ update bytes_eq (hashed.get_by_text prices.old) (utf8 article.text) (Some price) bs) }
{
    prices.insert(article, price)?;
    Ok(())
}

/// Removes the price of one article only.
pub fn remove_price(prices: &mut BTreeMap<CompactString, u64>, article: &str)
    ensures { (bs : List ℕ) → sorted.get_by_text prices.new bs
        ≡ update bytes_eq (sorted.get_by_text prices.old) article.now None bs }
{
    prices.remove(article);
}

/// Sets the price of an article, and returns what its name then maps to.
pub fn set_and_find(
    alloc: Global,
    prices: &mut HashMap<CompactString, u64>,
    article: &str,
    price: u64,
) -> Result<Option<u64>, ReserveError>
    ensures { IfOk result (λ found. found ≡ Some price) }
{
    prices.insert(CompactString::new(alloc, article)?, price)?;
    Ok(prices.get(article).copied())
}

/// Sets the price of an article, and returns what `"total"` then maps to.
pub fn total_after(
    alloc: Global,
    bill: &mut IndexMap<CompactString, u64>,
    article: &str,
    price: u64,
) -> Result<u64, ReserveError>
    ensures { let name = codes "total" in IfOk result (λ total. total ≡ unwrap_or
        (if bytes_eq article.now name then Some price else hashed.get_by_text bill.old name) 0) }
{
    bill.insert(CompactString::new(alloc, article)?, price)?;
    Ok(bill.get("total").copied().unwrap_or(0))
}

/// Adds a word, and returns `true` if `other` is then in the set.
pub fn has_after_adding(
    alloc: Global,
    words: &mut HashSet<CompactString>,
    word: &str,
    other: &str,
) -> Result<bool, ReserveError>
    ensures { IfOk result (λ has. has
        ≡ (bytes_eq word.now other.now || hashed.contains_text words.old other.now)) }
{
    words.insert(CompactString::new(alloc, word)?)?;
    Ok(words.contains(other))
}

/// `has_after_adding` for a sorted set.
pub fn sorted_has_after_adding(
    alloc: Global,
    sorted_words: &mut BTreeSet<CompactString>,
    word: &str,
    other: &str,
) -> Result<bool, ReserveError>
    ensures { IfOk result (λ has. has
        ≡ (bytes_eq word.now other.now || sorted.contains_text sorted_words.old other.now)) }
{
    sorted_words.insert(CompactString::new(alloc, word)?)?;
    Ok(sorted_words.contains(other))
}

/// `has_after_adding` for a set in insertion order.
pub fn ordered_has_after_adding(
    alloc: Global,
    row: &mut IndexSet<CompactString>,
    word: &str,
    other: &str,
) -> Result<bool, ReserveError>
    ensures { IfOk result (λ has. has
        ≡ (bytes_eq word.now other.now || hashed.contains_text row.old other.now)) }
{
    row.insert(CompactString::new(alloc, word)?)?;
    Ok(row.contains(other))
}
