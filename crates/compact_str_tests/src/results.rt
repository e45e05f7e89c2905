//! Checks that take ownership of a result: a test that owned it would be costly to prove.

use compact_asserts::{assert_equal, that_for};
use compact_str::CompactString;
use compact_testing::checks::is_inline;
use std::alloc::AllocError;
use std::process::Abort;

/// Asserts that this short text was made, inline.
pub fn assert_made_inline<E: Drop>(rt: &impl Abort, made: Result<CompactString, E>, text: &str) {
    that_for(text, is_inline(&made.ok().expect(rt, "a text"), text)).expect(rt, "it holds");
}

/// Asserts the result of a format.
pub fn assert_shown(rt: &impl Abort, made: Result<String, AllocError>, text: &str) {
    assert_equal!(rt, made.expect(rt, "memory").as_str(), text);
}
