//! Texts of formats when allocations fail, beyond what `compact_table_tests` tries of each call.

use compact_asserts::{assert_equal, assert_that, that_for};
use compact_ext::{ToCompactString, ToCompactStringError, format_compact};
use compact_str::{CompactString, ReserveError};
use compact_testing::checks::is_inline;
use compact_testing::memory::take_all;
use compact_testing::values::{ascii_text, string_with_room};
use std::alloc::Global;
use std::borrow::CowStr;
use std::boxed::BoxedStr;
use std::fmt;
use std::fmt::Display;
use std::process::Abort;

/// Writes 30 `a`s this many times, and returns `Ok` even if that fails.
#[derive(Drop)]
struct Hiding(usize);

impl Display for Hiding {
    fn fmt<W: fmt::Write>(&self, f: &mut fmt::Formatter<W>) -> fmt::Result {
        for _ in 0..self.0 {
            let _failed = f.write_str(ascii_text(30)).is_err();
        }
        Ok(())
    }
}

/// Asserts that a format made this text, inline. Takes ownership of the result.
fn is(rt: &impl Abort, made: Result<CompactString, ToCompactStringError>, text: &str) {
    that_for(text, is_inline(&made.expect(rt, "memory"), text)).expect(rt, "it holds");
}

fn fails_to_allocate(made: Result<CompactString, ToCompactStringError>) -> bool {
    made.err() == Some(ToCompactStringError::Reserve(ReserveError))
}

#[test]
fn formats_and_strings_of_24_bytes_need_no_memory(rt: HostRuntime) {
    let rt = &rt;
    let alloc = rt.alloc();
    let string = string_with_room(alloc, 30, "i am 24 characters long!").expect(rt, "memory");
    let hog = take_all(alloc).expect(rt, "room for the list of blocks");
    is(
        rt,
        string.to_compact_string(alloc),
        "i am 24 characters long!",
    );
    is(rt, format_compact!(in alloc; "{}-{}", 7, "a"), "7-a");
    drop(hog);
}

/// Asserts that both calls on a value fail.
fn assert_fails<T: ToCompactString>(rt: &impl Abort, alloc: Global, value: &T) {
    assert_that!(rt, fails_to_allocate(value.to_compact_string(alloc)));
    assert_that!(rt, fails_to_allocate(value.try_to_compact_string(alloc)));
}

#[test]
fn boxes_and_cows_of_24_bytes_need_no_memory(rt: HostRuntime) {
    let rt = &rt;
    let alloc = rt.alloc();
    let short = BoxedStr::from_str(alloc, ascii_text(24)).expect(rt, "memory");
    let long = BoxedStr::from_str(alloc, ascii_text(30)).expect(rt, "memory");
    let hog = take_all(alloc).expect(rt, "room for the list of blocks");
    is(rt, short.to_compact_string(alloc), ascii_text(24));
    is(
        rt,
        CowStr::Borrowed(ascii_text(24)).to_compact_string(alloc),
        ascii_text(24),
    );
    assert_fails(rt, alloc, &long);
    assert_fails(rt, alloc, &CowStr::Borrowed(ascii_text(30)));
    drop(hog);
}

#[test]
fn a_failure_that_a_display_hides_is_reported(rt: HostRuntime) {
    let rt = &rt;
    let alloc = rt.alloc();
    let hog = take_all(alloc).expect(rt, "room for the list of blocks");
    assert_that!(
        rt,
        fails_to_allocate(format_compact!(in alloc; "{}", Hiding(1))),
    );
    assert_that!(
        rt,
        fails_to_allocate(format_compact!(in alloc; "{}a", Hiding(2))),
    );
    drop(hog);
    let text = format_compact!(in alloc; "{}", Hiding(2)).expect(rt, "memory");
    assert_equal!(rt, text.as_str(), ascii_text(60));
    assert_that!(rt, text.is_heap_allocated());
}
