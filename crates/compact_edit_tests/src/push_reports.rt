//! Runs of pushes under several growth policies, with the bytes they move; and other calls under those policies.

use compact_asserts::{assert_equal, assert_that, that};
use compact_edit::{PushReport, run_pushes};
use compact_str::{Policy, PolicyString, Standard};
use compact_testing::checks::{is_heap, is_inline};
use compact_testing::policies::{Double, Large, Slow};
use compact_testing::values::{append, ascii_text};
use std::alloc::Global;
use std::process::Abort;

/// Inserts `a` at a boundary.
fn insert<P: Policy>(rt: &impl Abort, value: &mut PolicyString<P>, index: usize) {
    that(value.is_char_boundary(index)).expect(rt, "it holds");
    value.insert(index, 'a').expect(rt, "memory");
}

/// Removes the first `a`.
fn remove_first<P: Policy>(rt: &impl Abort, value: &mut PolicyString<P>) {
    that(0 < value.len()).expect(rt, "it holds");
    that(value.is_char_boundary(0)).expect(rt, "it holds");
    assert_equal!(rt, value.remove(0).expect(rt, "memory"), 'a');
}

/// Asserts how many bytes were moved, and how many pushes failed.
fn assert_counts<P: Policy>(rt: &impl Abort, report: &PushReport<P>, moved: u64, refused: usize) {
    assert_equal!(rt, report.moved, moved);
    assert_equal!(rt, report.refused, refused);
}

/// Asserts that all of the texts, which are `a`s, are pushed, the buffer they end in, and how many bytes were moved.
fn assert_pushed<P: Policy>(
    rt: &impl Abort,
    alloc: Global,
    texts: &[&str],
    capacity: usize,
    count: usize,
    moved: u64,
) {
    let report = run_pushes::<P>(alloc, texts);
    assert_that!(rt, is_heap(&report.value, capacity, ascii_text(count)));
    assert_counts(rt, &report, moved, 0);
}

/// Asserts that all of the texts are pushed, and are inline as `text`.
fn assert_pushed_inline<P: Policy>(rt: &impl Abort, alloc: Global, texts: &[&str], text: &str) {
    let report = run_pushes::<P>(alloc, texts);
    assert_that!(rt, is_inline(&report.value, text));
    assert_counts(rt, &report, 0, 0);
}

#[test]
fn each_growth_moves_the_text(rt: HostRuntime) {
    let rt = &rt;
    let alloc = rt.alloc();
    let texts = [
        ascii_text(24),
        ascii_text(1),
        ascii_text(12),
        ascii_text(1),
        ascii_text(18),
        ascii_text(2),
    ];
    assert_pushed_inline::<Standard>(rt, alloc, &texts[..1], ascii_text(24));
    assert_pushed::<Standard>(rt, alloc, &texts[..2], 36, 25, 24);
    assert_pushed::<Standard>(rt, alloc, &texts[..3], 37, 37, 49);
    assert_pushed::<Standard>(rt, alloc, &texts[..4], 55, 38, 86);
    assert_pushed::<Standard>(rt, alloc, &texts[..5], 57, 56, 124);
    assert_pushed::<Standard>(rt, alloc, &texts, 84, 58, 180);
}

#[test]
fn no_texts_leave_the_empty_value(rt: HostRuntime) {
    assert_pushed_inline::<Standard>(&rt, rt.alloc(), &[], "");
}

/// Asserts the result of a thousand pushes of one byte.
fn assert_thousand<P: Policy>(rt: &impl Abort, alloc: Global, capacity: usize, moved: u64) {
    let report = run_pushes::<P>(alloc, &["a"; 1000]);
    assert_equal!(rt, report.value.len(), 1000);
    assert_equal!(rt, report.value.capacity(), capacity);
    assert_counts(rt, &report, moved, 0);
}

#[test]
fn a_thousand_bytes_are_pushed_one_by_one(rt: HostRuntime) {
    let alloc = rt.alloc();
    assert_thousand::<Standard>(&rt, alloc, 1369, 2696);
    assert_thousand::<Slow>(&rt, alloc, 1010, 3970);
    assert_thousand::<Large>(&rt, alloc, 4096, 24);
}

#[test]
fn buffers_double(rt: HostRuntime) {
    let rt = &rt;
    let alloc = rt.alloc();
    let texts = [ascii_text(24), "a", ascii_text(24), "a", "a"];
    assert_pushed_inline::<Double>(rt, alloc, &texts[..1], ascii_text(24));
    assert_pushed::<Double>(rt, alloc, &texts[..2], 48, 25, 24);
    assert_pushed::<Double>(rt, alloc, &texts[..3], 50, 49, 49);
    assert_pushed::<Double>(rt, alloc, &texts[..4], 50, 50, 49);
    assert_pushed::<Double>(rt, alloc, &texts, 100, 51, 99);
}

#[test]
fn buffers_grow_by_a_quarter(rt: HostRuntime) {
    let rt = &rt;
    let alloc = rt.alloc();
    assert_pushed::<Slow>(rt, alloc, &[ascii_text(25)], 25, 25, 0);
    assert_pushed::<Slow>(rt, alloc, &[ascii_text(25), "a"], 31, 26, 25);
    let made = PolicyString::<Slow>::new(alloc, ascii_text(25));
    assert_that!(rt, is_heap(&made.expect(rt, "memory"), 25, ascii_text(25)));
}

#[test]
fn a_first_buffer_is_large(rt: HostRuntime) {
    assert_pushed::<Large>(&rt, rt.alloc(), &[ascii_text(25)], 4096, 25, 0);
}

#[test]
fn a_shrink_keeps_the_least_capacity(rt: HostRuntime) {
    let rt = &rt;
    let made = PolicyString::<Large>::with_capacity(rt.alloc(), 8192);
    let mut value = made.expect(rt, "memory");
    append(&mut value, ascii_text(30)).expect(rt, "memory");
    assert_that!(rt, is_heap(&value, 8192, ascii_text(30)));
    value.shrink_to_fit();
    assert_that!(rt, is_heap(&value, 4096, ascii_text(30)));
}

#[test]
fn another_policy_owns_in_its_own_least_buffer(rt: HostRuntime) {
    let rt = &rt;
    let mut value = PolicyString::<Large>::const_new(rt.alloc(), ascii_text(30));
    remove_first(rt, &mut value);
    assert_that!(rt, is_heap(&value, 4096, ascii_text(29)));
    insert(rt, &mut value, 0);
    assert_that!(rt, is_heap(&value, 4096, ascii_text(30)));
}

#[test]
fn another_policy_inserts_in_its_own_least_buffer(rt: HostRuntime) {
    let mut value = PolicyString::<Large>::const_new(rt.alloc(), ascii_text(30));
    insert(&rt, &mut value, 30);
    assert_that!(&rt, is_heap(&value, 4096, ascii_text(31)));
}
