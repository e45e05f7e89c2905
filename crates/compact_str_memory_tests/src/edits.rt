//! Edits with no memory, beyond what `compact_table_tests` tries of each call.

use crate::asserts::{assert_heap, assert_inline};
use compact_asserts::{assert_equal, assert_that};
use compact_str::append_all;
use compact_testing::checks::is_static;
use compact_testing::memory::take_all;
use compact_testing::values::{ascii_text, lasting, short, string_with_room, with_room};
use std::fmt;
use std::fmt::Display;

/// Writes 80 characters twenty times, and returns `Ok` even if that fails.
#[derive(Drop)]
struct Hiding;

impl Display for Hiding {
    fn fmt<W: fmt::Write>(&self, f: &mut fmt::Formatter<W>) -> fmt::Result {
        for _ in 0..20 {
            let _failed = f.write_str(ascii_text(80)).is_err();
        }
        Ok(())
    }
}

#[test]
fn a_retain_that_fails_has_not_called_its_closure(rt: HostRuntime) {
    let rt = &rt;
    let alloc = rt.alloc();
    let mut value = lasting(alloc, 30);
    let hog = take_all(alloc).expect(rt, "room for the list of blocks");
    let mut called = false;
    let kept = value.retain(|_| {
        called = true;
        false
    });
    drop(hog);
    assert_that!(rt, kept.is_err());
    assert_that!(rt, !called);
    assert_that!(rt, is_static(&value, ascii_text(30)));
}

#[test]
fn more_than_1024_bytes_are_written_by_a_buffer_of_their_own(rt: HostRuntime) {
    let rt = &rt;
    let alloc = rt.alloc();
    let mut roomy = with_room(alloc, 3000).expect(rt, "memory");
    let hog = take_all(alloc).expect(rt, "room for the list of blocks");
    let past_the_block = write!(roomy, "{:>1100}", 7).is_err();
    let fits_the_block = write!(roomy, "{}", "ab").is_ok();
    drop(hog);
    assert_that!(rt, past_the_block && fits_the_block);
    assert_heap(rt, &roomy, 3000, "ab");
}

#[test]
fn a_write_reports_a_failure_that_a_display_hides(rt: HostRuntime) {
    let rt = &rt;
    let alloc = rt.alloc();
    let mut roomy = with_room(alloc, 3000).expect(rt, "memory");
    let hog = take_all(alloc).expect(rt, "room for the list of blocks");
    let failed = roomy.write(Hiding).is_err();
    drop(hog);
    assert_that!(rt, failed);
    assert_heap(rt, &roomy, 3000, "");
    roomy.write(Hiding).expect(rt, "memory");
    assert_equal!(rt, roomy.len(), 1600);
}

#[test]
fn an_extension_that_fails_leaves_the_later_items(rt: HostRuntime) {
    let rt = &rt;
    let alloc = rt.alloc();
    let mut value = short(alloc, "a");
    let texts = ["b", ascii_text(30), "c"];
    let mut items = texts.iter();
    let hog = take_all(alloc).expect(rt, "room for the list of blocks");
    let failed = value.extend_texts(&mut items).is_err();
    drop(hog);
    assert_that!(rt, failed);
    assert_inline(rt, &value, "ab");
    assert_that!(rt, items.next().is_some_and(|text| *text == "c"));
    assert_that!(rt, items.next().is_none());
}

#[test]
fn an_append_to_a_string_that_fails_leaves_the_later_items(rt: HostRuntime) {
    let rt = &rt;
    let alloc = rt.alloc();
    let mut line = string_with_room(alloc, 8, "a").expect(rt, "memory");
    let texts = ["b", ascii_text(30), "c"];
    let mut items = texts.iter();
    let hog = take_all(alloc).expect(rt, "room for the list of blocks");
    let failed = append_all(&mut line, &mut items).is_err();
    drop(hog);
    assert_that!(rt, failed);
    assert_equal!(rt, line.as_str(), "ab");
    assert_that!(rt, items.next().is_some_and(|text| *text == "c"));
    assert_that!(rt, items.next().is_none());
}
