//! The tokenizer with no memory.

use compact_asserts::{assert_equal, assert_that};
use compact_edit::{InternError, Interner};
use compact_testing::memory::take_all;
use compact_testing::values::{ascii_text, value_of};
use compact_uses::tokenize;
use std::alloc::Global;
use std::process::Abort;

/// Asserts that a text fails, keeping the one name.
fn assert_fails(rt: &impl Abort, alloc: Global, names: &mut Interner, text: &str) {
    let text = value_of(alloc, text).expect(rt, "memory");
    let hog = take_all(alloc).expect(rt, "room for the list of blocks");
    let tokens = tokenize(alloc, names, &text);
    drop(hog);
    assert_that!(rt, matches!(tokens, Err(InternError::Reserve(_))));
    assert_equal!(rt, names.name(0), Some("ab"));
    assert_equal!(rt, names.len(), 1);
}

#[test]
fn a_tokenizer_that_fails_leaves_the_names(rt: HostRuntime) {
    let rt = &rt;
    let alloc = rt.alloc();
    let mut names = Interner::new(alloc);
    assert_equal!(rt, names.intern("ab").expect(rt, "memory"), 0);
    for text in ["ab ab", ascii_text(30)] {
        assert_fails(rt, alloc, &mut names, text);
    }
}
