//! Checks that take ownership of a result: a test that owned it would be costly to prove.

use compact_asserts::that_for;
use compact_str::CompactString;
use compact_testing::checks::{is_fitted, is_inline};
use std::alloc::Global;
use std::process::Abort;

/// Asserts that the named call failed.
pub fn assert_fails<T: Drop, E: Drop>(rt: &impl Abort, call: &str, made: Result<T, E>) {
    that_for(call, made.is_err()).expect(rt, "it holds");
}

/// Asserts that the named call made a text, inline up to 24 bytes and else on the heap; or, if `None`, that it failed.
pub fn assert_made<E: Drop>(
    rt: &impl Abort,
    call: &str,
    made: Result<CompactString, E>,
    wanted: Option<&str>,
) {
    that_for(call, is_expected(made, wanted)).expect(rt, "it holds");
}

/// Returns `true` if the result is the expected one.
fn is_expected<E: Drop>(made: Result<CompactString, E>, wanted: Option<&str>) -> bool {
    match made {
        Ok(value) => match wanted {
            Some(text) => is_placed(&value, text),
            None => false,
        },
        Err(_) => wanted.is_none(),
    }
}

/// Returns `true` if a value owns this text, in the place for its length.
fn is_placed(value: &CompactString, text: &str) -> bool {
    if text.len() <= 24 {
        is_inline(value, text)
    } else {
        is_fitted(value, text)
    }
}

/// Creates values from literals.
pub fn values_of(rt: &impl Abort, alloc: Global, texts: &[&'static str]) -> Vec<CompactString> {
    let mut values = Vec::new(alloc);
    for text in texts {
        values
            .push(CompactString::const_new(alloc, text))
            .expect(rt, "memory");
    }
    values
}
