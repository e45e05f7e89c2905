//! Assertions that end the test on failure.

use compact_asserts::assert_that;
use compact_str::CompactString;
use compact_testing::checks::{is_fitted, is_heap, is_inline};
use std::process::Abort;

/// Asserts that a value is inline with this text.
pub fn assert_inline(rt: &impl Abort, value: &CompactString, text: &str) {
    assert_that!(rt, is_inline(value, text));
}

/// Asserts that a value is on the heap with this capacity, in bytes, and this text.
pub fn assert_heap(rt: &impl Abort, value: &CompactString, capacity: usize, text: &str) {
    assert_that!(rt, is_heap(value, capacity, text));
}

/// Asserts that a value owns this text: inline up to 24 bytes, else on the heap.
pub fn assert_fitted(rt: &impl Abort, value: &CompactString, text: &str) {
    assert_that!(rt, is_fitted(value, text));
}
