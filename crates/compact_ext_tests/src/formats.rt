//! Texts of formats.

use compact_asserts::{assert_equal, assert_that, that_for};
use compact_ext::{ToCompactStringError, format_compact};
use compact_str::{CompactString, ReserveError};
use compact_testing::checks::is_inline;
use compact_testing::values::ascii_text;
use std::alloc::Global;
use std::fmt;
use std::fmt::Display;
use std::process::Abort;

/// Writes `a`, then fails without an allocation failing.
#[derive(Drop)]
struct Failing;

impl Display for Failing {
    fn fmt<W: fmt::Write>(&self, f: &mut fmt::Formatter<W>) -> fmt::Result {
        f.write_str("a")?;
        Err(fmt::Error)
    }
}

/// The result of a format.
type Made = Result<CompactString, ToCompactStringError>;

fn text_of(rt: &impl Abort, made: Made) -> CompactString {
    made.expect(rt, "memory")
}

/// Asserts that a format made this text, inline. Takes ownership of the result.
fn is(rt: &impl Abort, made: Made, text: &str) {
    that_for(text, is_inline(&text_of(rt, made), text)).expect(rt, "it holds");
}

#[test]
fn formats_have_these_texts(rt: HostRuntime) {
    let rt = &rt;
    let alloc = rt.alloc();
    is(rt, format_compact!(in alloc; "{}-{:04}", 7, 42), "7-0042");
    is(rt, format_compact!(in alloc; "a literal"), "a literal");
    is(rt, format_compact!(in alloc; ""), "");
    is(rt, format_compact!(in alloc; "{{{}}}", true), "{true}");
}

#[test]
fn options_are_kept(rt: HostRuntime) {
    let alloc = rt.alloc();
    is(&rt, format_compact!(in alloc; "{:?}", "a\n"), "\"a\\n\"");
    let made = format_compact!(in alloc; "{:>8}|{:<3}|", "äb", 7);
    is(&rt, made, "      äb|7  |");
    let made = format_compact!(in alloc; "{:#x} {:#b}", 255, 5);
    is(&rt, made, "0xff 0b101");
}

#[test]
fn arguments_may_have_names(rt: HostRuntime) {
    let alloc = rt.alloc();
    let place = "€";
    let made = format_compact!(in alloc; "{place}{sum}", sum = -12);
    is(&rt, made, "€-12");
    is(&rt, format_compact!(in alloc; "{0}{1}{0}", 'a', 'b'), "aba");
}

#[test]
fn up_to_24_bytes_are_inline_and_more_on_the_heap(rt: HostRuntime) {
    let rt = &rt;
    let alloc = rt.alloc();
    let made = format_compact!(in alloc; "{}{}", ascii_text(20), 1234);
    is(rt, made, "aaaaaaaaaaaaaaaaaaaa1234");
    let text = text_of(rt, format_compact!(in alloc; "{}{}", ascii_text(20), 12345));
    assert_that!(rt, text.is_heap_allocated());
    assert_equal!(rt, text.as_str(), "aaaaaaaaaaaaaaaaaaaa12345");
}

/// The buffer that a piece of more than 24 bytes takes has room for 32 more.
#[test]
fn a_long_piece_and_a_short_end_take_one_buffer(rt: HostRuntime) {
    let rt = &rt;
    let alloc = rt.alloc();
    let text = text_of(rt, format_compact!(in alloc; "{}-{}", ascii_text(25), 7));
    assert_equal!(rt, text.as_str(), "aaaaaaaaaaaaaaaaaaaaaaaaa-7");
    assert_equal!(rt, text.capacity(), 57);
    let text = text_of(rt, format_compact!(in alloc; "{}{}", 12345, ascii_text(25)));
    assert_equal!(rt, text.as_str(), "12345aaaaaaaaaaaaaaaaaaaaaaaaa");
    assert_equal!(rt, text.capacity(), 62);
    let text = text_of(
        rt,
        format_compact!(in alloc; "{}{}", ascii_text(25), ascii_text(33)),
    );
    assert_equal!(rt, text.len(), 58);
    assert_equal!(rt, text.capacity(), 58);
}

#[test]
fn a_long_format_is_made(rt: HostRuntime) {
    let rt = &rt;
    let alloc = rt.alloc();
    let text = text_of(rt, format_compact!(in alloc; "{:>5000}|{:>5000}", 7, 8));
    assert_equal!(rt, text.len(), 10_001);
    assert_that!(rt, text.starts_with("  "));
    assert_that!(rt, text.ends_with("  8"));
    assert_equal!(rt, text.find('|'), Some(5000));
}

#[test]
fn a_display_that_fails_is_no_failed_allocation(rt: HostRuntime) {
    let alloc = rt.alloc();
    let failed = format_compact!(in alloc; "{Failing}");
    assert_that!(
        &rt,
        failed.err() == Some(ToCompactStringError::Fmt(fmt::Error)),
    );
    let failed = format_compact!(in alloc; "{}{}", ascii_text(40), Failing);
    assert_that!(
        &rt,
        failed.err() == Some(ToCompactStringError::Fmt(fmt::Error)),
    );
}

#[test]
fn errors_are_converted(rt: HostRuntime) {
    let refused = ToCompactStringError::from(ReserveError);
    let failed = ToCompactStringError::from(fmt::Error);
    assert_that!(&rt, refused == ToCompactStringError::Reserve(ReserveError));
    assert_that!(&rt, failed == ToCompactStringError::Fmt(fmt::Error));
    assert_that!(&rt, refused != failed);
}

/// Asserts the `Display` of an error.
fn is_shown(rt: &impl Abort, alloc: Global, error: ToCompactStringError, text: &str) {
    let made = text_of(rt, format_compact!(in alloc; "{error}"));
    assert_equal!(rt, made.as_str(), text);
}

#[test]
fn errors_have_these_texts(rt: HostRuntime) {
    let alloc = rt.alloc();
    let refused = ToCompactStringError::from(ReserveError);
    let text = "Cannot allocate memory to hold CompactString";
    is_shown(&rt, alloc, refused, text);
    let same = text_of(&rt, format_compact!(in alloc; "{}", fmt::Error));
    is_shown(&rt, alloc, fmt::Error.into(), same.as_str());
}
