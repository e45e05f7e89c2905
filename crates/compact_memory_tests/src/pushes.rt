//! Runs of pushes with no memory, or with one block.

use compact_asserts::{assert_equal, assert_that};
use compact_edit::{PushReport, run_pushes};
use compact_str::{Policy, Standard};
use compact_testing::checks::{is_heap, is_inline};
use compact_testing::memory::take_all;
use compact_testing::policies::Slow;
use compact_testing::values::ascii_text;
use std::alloc::Global;
use std::process::Abort;

/// Asserts how many bytes were moved, and how many pushes failed.
fn assert_counts<P: Policy>(rt: &impl Abort, report: &PushReport<P>, moved: u64, failed: usize) {
    assert_equal!(rt, report.moved, moved);
    assert_equal!(rt, report.refused, failed);
}

/// Asserts that one of some texts fails with only one block of `room` bytes free, how many `a`s that block then has,
/// and how many bytes were moved.
fn assert_one_fails(
    rt: &impl Abort,
    alloc: Global,
    texts: &[&str],
    room: usize,
    count: usize,
    moved: u64,
) {
    let block = Vec::<u8>::with_capacity(alloc, room).expect(rt, "a spare block");
    let hog = take_all(alloc).expect(rt, "room for the list of blocks");
    drop(block);
    let report = run_pushes::<Standard>(alloc, texts);
    drop(hog);
    assert_that!(rt, is_heap(&report.value, room, ascii_text(count)));
    assert_counts(rt, &report, moved, 1);
}

#[test]
fn the_pushes_before_and_after_one_that_fails_succeed(rt: HostRuntime) {
    for (texts, room, count, moved) in [
        ([ascii_text(24), ascii_text(40), "a"].as_slice(), 36, 25, 24),
        ([ascii_text(70), ascii_text(30)].as_slice(), 32, 30, 0),
        ([ascii_text(30), ascii_text(30)].as_slice(), 32, 30, 0),
    ] {
        assert_one_fails(&rt, rt.alloc(), texts, room, count, moved);
    }
}

#[test]
fn without_memory_only_what_fits_inline_is_pushed(rt: HostRuntime) {
    let alloc = rt.alloc();
    let texts = [ascii_text(20), ascii_text(5), ascii_text(4), "a", ""];
    let hog = take_all(alloc).expect(&rt, "room for the list of blocks");
    let report = run_pushes::<Slow>(alloc, &texts);
    drop(hog);
    assert_that!(&rt, is_inline(&report.value, ascii_text(24)));
    assert_counts(&rt, &report, 0, 2);
}
