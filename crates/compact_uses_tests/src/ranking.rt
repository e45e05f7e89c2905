//! Ranking words by frequency.

use compact_asserts::that;
use compact_uses::{Entry, Kind, Token, ranking};

/// Creates a word from its number.
fn word(name: u32) -> Token {
    Token {
        kind: Kind::Word,
        name,
    }
}

/// Returns `true` if an entry has this count and number.
fn is_entry(entry: Option<&Entry>, count: usize, name: u32) -> bool {
    match entry {
        Some(entry) => entry.count == count && entry.name == name,
        None => false,
    }
}

// Words with the numbers 0, 1, 1 and 3, and a mark with number 2, which is no word.
#[test]
fn the_most_frequent_word_comes_first(rt: HostRuntime) {
    let rt = &rt;
    let hyphen = Token {
        kind: Kind::Mark,
        name: 2,
    };
    let tokens = [word(0), word(1), hyphen, word(1), word(3)];
    let ranks = ranking(rt.alloc(), &tokens, 4).expect(rt, "memory");
    that(ranks.len() == 3).expect(rt, "three words");
    that(is_entry(ranks.first(), 2, 1)).expect(rt, "the one that stands twice");
    that(is_entry(ranks.get(1), 1, 0)).expect(rt, "the lower number");
    that(is_entry(ranks.get(2), 1, 3)).expect(rt, "the higher number");
}
