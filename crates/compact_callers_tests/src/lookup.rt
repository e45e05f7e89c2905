//! Tests of the callers in `lookup.rt`.

use compact_asserts::{assert_equal, assert_that};
use compact_callers::key::set_count;
use compact_callers::lookup::{forget, is_in_both, place_by_text, total};
use compact_testing::values::short;
use indexmap::IndexMap;
use std::collections::{BTreeSet, HashMap, HashSet};

#[test]
fn a_count_is_found_by_its_text(rt: HostRuntime) {
    let rt = &rt;
    let alloc = rt.alloc();
    let mut counts = HashMap::new(alloc);
    assert_that!(rt, set_count(&mut counts, short(alloc, "total"), 3).is_ok());
    assert_equal!(rt, total(&counts), 3);
    forget(&mut counts, "total");
    assert_equal!(rt, total(&counts), 0);
}

#[test]
fn a_word_is_found_in_sets(rt: HostRuntime) {
    let rt = &rt;
    let alloc = rt.alloc();
    let mut words = HashSet::new(alloc);
    let mut sorted_words = BTreeSet::new(alloc);
    assert_that!(rt, words.insert(short(alloc, "a")).is_ok());
    assert_that!(rt, sorted_words.insert(short(alloc, "a")).is_ok());
    assert_that!(rt, is_in_both(&words, &sorted_words, "a"));
    assert_that!(rt, !is_in_both(&words, &sorted_words, "b"));
}

#[test]
fn a_place_is_found_by_its_text(rt: HostRuntime) {
    let rt = &rt;
    let alloc = rt.alloc();
    let mut row = IndexMap::new(alloc);
    assert_that!(rt, row.insert(short(alloc, "b"), 1).is_ok());
    assert_that!(rt, row.insert(short(alloc, "a"), 2).is_ok());
    assert_equal!(rt, place_by_text(&row, "a"), Some(1));
    assert_equal!(rt, place_by_text(&row, "c"), None);
}
