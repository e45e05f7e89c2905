//! The tokenizer: characters of each width.

use compact_asserts::{assert_equal, assert_that};
use compact_edit::Interner;
use compact_testing::values::value_of;
use compact_uses::{Kind, Token, tokenize};
use std::alloc::Global;
use std::process::Abort;

/// Asserts the kind and number of a token.
fn assert_token(rt: &impl Abort, token: Option<Token>, kind: Kind, name: u32) {
    assert_that!(rt, token == Some(Token { kind, name }));
}

/// Tokenizes a text.
fn tokens_of(rt: &impl Abort, alloc: Global, names: &mut Interner, text: &str) -> Vec<Token> {
    tokenize(alloc, names, &value_of(alloc, text).expect(rt, "memory")).expect(rt, "memory")
}

/// Returns the kind for a letter.
fn kind_of(letter: char) -> Kind {
    match letter {
        'w' => Kind::Word,
        'n' => Kind::Number,
        's' => Kind::Space,
        _ => Kind::Mark,
    }
}

/// Asserts the kinds of tokens, one letter each, and their numbers.
fn assert_tokens(rt: &impl Abort, tokens: &[Token], letters: &str, numbers: &[u32]) {
    for (index, letter) in letters.chars().enumerate() {
        let name = numbers.get(index).copied().unwrap_or(9);
        assert_token(rt, tokens.get(index).copied(), kind_of(letter), name);
    }
}

/// Asserts the names of some numbers.
fn assert_names(rt: &impl Abort, names: &Interner, wanted: &[(u32, &str)]) {
    for (number, name) in wanted {
        assert_equal!(rt, names.name(*number), Some(*name));
    }
}

// Kinds of characters as by Python's `isalpha`, `isnumeric` and `isspace`.
#[test]
fn characters_of_each_width_are_cut_by_their_kind(rt: HostRuntime) {
    let rt = &rt;
    let alloc = rt.alloc();
    let mut names = Interner::new(alloc);
    let text = "ab, 12 éß字٣\u{a0}😀😀x";
    let tokens = tokens_of(rt, alloc, &mut names, text);
    assert_equal!(rt, tokens.len(), 11);
    let numbers = [0, 1, 2, 3, 2, 4, 5, 6, 7, 7, 8];
    assert_tokens(rt, &tokens, "w.snswns..w", &numbers);
    assert_names(rt, &names, &[(4, "éß字"), (6, "\u{a0}"), (7, "😀")]);
    assert_equal!(rt, names.len(), 9);
}
