//! The interner with no memory.

use compact_asserts::{assert_equal, assert_that};
use compact_edit::{InternError, Interner};
use compact_testing::memory::take_all;
use compact_testing::values::ascii_text;
use std::alloc::Global;
use std::process::Abort;

/// A name of 25 bytes, which is not inline. A function, so that a proof need not carry each one.
fn long() -> &'static str {
    "zzzzzzzzzzzzzzzzzzzzzzzzz"
}

/// Asserts the number of a text.
fn is_number(rt: &impl Abort, names: &mut Interner, text: &str, number: u32) {
    assert_equal!(rt, names.intern(text).expect(rt, "memory"), number);
}

/// Asserts that a text fails for lack of memory, leaving `count` names.
fn assert_fails(rt: &impl Abort, names: &mut Interner, text: &str, count: usize) {
    let failed = matches!(names.intern(text), Err(InternError::Reserve(_)));
    assert_that!(rt, failed);
    assert_equal!(rt, names.len(), count);
}

/// Asserts that a list of texts fails when no memory is left.
fn assert_all_fails(
    rt: &impl Abort,
    alloc: Global,
    names: &mut Interner,
    texts: &[&str],
    numbers: &mut Vec<u32>,
) {
    let hog = take_all(alloc).expect(rt, "room for the list of blocks");
    let taken = names.intern_all(texts, numbers);
    drop(hog);
    assert_that!(rt, matches!(taken, Err(InternError::Reserve(_))));
}

#[test]
fn a_name_already_in_the_table_needs_no_memory(rt: HostRuntime) {
    let rt = &rt;
    let alloc = rt.alloc();
    let mut names = Interner::new(alloc);
    is_number(rt, &mut names, "a", 0);
    is_number(rt, &mut names, "b", 1);
    is_number(rt, &mut names, "", 2);
    is_number(rt, &mut names, long(), 3);
    let hog = take_all(alloc).expect(rt, "room for the list of blocks");
    is_number(rt, &mut names, "a", 0);
    assert_fails(rt, &mut names, ascii_text(30), 4);
    is_number(rt, &mut names, long(), 3);
    drop(hog);
    assert_equal!(rt, names.name(3), Some(long()));
    is_number(rt, &mut names, ascii_text(30), 4);
}

#[test]
fn the_table_of_the_names_cannot_be_allocated(rt: HostRuntime) {
    let alloc = rt.alloc();
    let mut names = Interner::new(alloc);
    let hog = take_all(alloc).expect(&rt, "room for the list of blocks");
    assert_fails(&rt, &mut names, "a", 0);
    drop(hog);
    is_number(&rt, &mut names, "a", 0);
}

#[test]
fn the_table_cannot_be_allocated_after_the_copy_of_a_text(rt: HostRuntime) {
    let rt = &rt;
    let alloc = rt.alloc();
    let mut names = Interner::new(alloc);
    let room = Vec::<u8>::with_capacity(alloc, 32).expect(rt, "a spare block");
    let hog = take_all(alloc).expect(rt, "room for the list of blocks");
    drop(room);
    assert_fails(rt, &mut names, ascii_text(30), 0);
    drop(hog);
    is_number(rt, &mut names, ascii_text(30), 0);
}

/// Returns the numbers 0 to 7 in a list that is full.
fn eight_numbers(rt: &impl Abort, alloc: Global) -> Vec<u32> {
    let mut numbers = Vec::with_capacity(alloc, 8).expect(rt, "memory");
    for number in 0..8u32 {
        numbers.push(number).expect(rt, "memory");
    }
    numbers
}

#[test]
fn without_room_for_the_numbers_no_text_is_interned(rt: HostRuntime) {
    let rt = &rt;
    let alloc = rt.alloc();
    let mut names = Interner::new(alloc);
    let mut numbers = eight_numbers(rt, alloc);
    is_number(rt, &mut names, "a", 0);
    assert_all_fails(rt, alloc, &mut names, &["a", "b"], &mut numbers);
    assert_equal!(rt, numbers.as_slice(), [0, 1, 2, 3, 4, 5, 6, 7].as_slice());
    assert_equal!(rt, names.len(), 1);
}

#[test]
fn the_texts_before_the_one_that_fails_have_their_numbers(rt: HostRuntime) {
    let rt = &rt;
    let alloc = rt.alloc();
    let mut names = Interner::new(alloc);
    let mut numbers = Vec::with_capacity(alloc, 8).expect(rt, "memory");
    numbers.push(7).expect(rt, "memory");
    is_number(rt, &mut names, "a", 0);
    is_number(rt, &mut names, "b", 1);
    let texts = ["b", "a", ascii_text(30), "b"];
    assert_all_fails(rt, alloc, &mut names, &texts, &mut numbers);
    assert_equal!(rt, numbers.as_slice(), [7, 1, 0].as_slice());
    assert_equal!(rt, names.len(), 2);
}

#[test]
fn an_interner_with_capacity_needs_no_memory_for_short_names(rt: HostRuntime) {
    let rt = &rt;
    let mut names = Interner::with_capacity(rt.alloc(), 3).expect(rt, "memory");
    let hog = take_all(rt.alloc()).expect(rt, "room for the list of blocks");
    is_number(rt, &mut names, "a", 0);
    is_number(rt, &mut names, "b", 1);
    is_number(rt, &mut names, "c", 2);
    drop(hog);
}
