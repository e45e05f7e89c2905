//! The wire form with no memory. The bytes read until an allocation fails show how much was being allocated.

use crate::endless_reader::EndlessReader;
use compact_asserts::{assert_equal, assert_that};
use compact_ext::wire::{Records, WireError, read_wire, write_wire};
use compact_testing::checks::is_inline;
use compact_testing::memory::take_all;
use compact_testing::values::short;
use std::alloc::Global;
use std::process::Abort;

const MEGABYTE: usize = 1 << 20;

/// Asserts that an allocation failed.
fn assert_fails<T>(rt: &impl Abort, made: &Result<T, WireError>) {
    assert_that!(rt, matches!(made, Err(WireError::Reserve(_))));
}

/// Asserts that the allocation for a text of `len` bytes fails after the reader has given `given`, including the
/// length.
fn assert_stops(rt: &impl Abort, alloc: Global, len: u32, given: usize) {
    let mut reader = EndlessReader::new(len, 16 * MEGABYTE);
    assert_fails(rt, &read_wire(alloc, &mut reader));
    assert_equal!(rt, reader.given, given);
}

#[test]
fn a_longer_text_fails_after_its_length(rt: HostRuntime) {
    let alloc = rt.alloc();
    let hog = take_all(alloc).expect(&rt, "room for the list of blocks");
    for len in [25, 55, u32::MAX] {
        assert_stops(&rt, alloc, len, 4);
    }
    drop(hog);
}

/// Asserts how much of a text of the greatest length is read, with only one block of `left` bytes free.
fn assert_stops_within(rt: &impl Abort, alloc: Global, left: usize, given: usize) {
    let block = Vec::<u8>::with_capacity(alloc, left).expect(rt, "a spare block");
    let hog = take_all(alloc).expect(rt, "room for the list of blocks");
    drop(block);
    assert_stops(rt, alloc, u32::MAX, given);
    drop(hog);
}

// The sizes were found by trial with the C library's allocator: one buffer succeeds from 2 megabytes on, two from 6
// and three from 10, since it takes more than requested and keeps a buffer until its bytes are moved.

#[test]
fn the_second_allocation_fails(rt: HostRuntime) {
    assert_stops_within(&rt, rt.alloc(), 3 * MEGABYTE, 4 + MEGABYTE);
}

#[test]
fn the_third_allocation_fails(rt: HostRuntime) {
    assert_stops_within(&rt, rt.alloc(), 7 * MEGABYTE, 4 + 2 * MEGABYTE);
}

#[test]
fn the_fourth_allocation_fails(rt: HostRuntime) {
    assert_stops_within(&rt, rt.alloc(), 13 * MEGABYTE, 4 + 4 * MEGABYTE);
}

#[test]
fn a_vector_that_cannot_grow_is_a_writer_that_fails(rt: HostRuntime) {
    let alloc = rt.alloc();
    let text = short(alloc, "Hi");
    let mut bytes = Vec::new(alloc);
    let hog = take_all(alloc).expect(&rt, "room for the list of blocks");
    assert_that!(
        &rt,
        matches!(write_wire(&text, &mut bytes), Err(WireError::Io(_))),
    );
    drop(hog);
    assert_equal!(&rt, bytes.len(), 0);
}

#[test]
fn a_long_text_is_read_in_several_steps(rt: HostRuntime) {
    let rt = &rt;
    let alloc = rt.alloc();
    let mut short = EndlessReader::new(0x0010_0001, 1_048_576);
    let ended = read_wire(alloc, &mut short);
    assert_that!(rt, matches!(ended, Err(WireError::UnexpectedEnd)));
    assert_equal!(rt, short.given, 4 + 1_048_576);
    let mut whole = EndlessReader::new(0x0010_0001, 1_048_577);
    let text = read_wire(alloc, &mut whole).expect(rt, "a text");
    assert_that!(rt, text.is_heap_allocated());
    assert_equal!(rt, text.len(), 1_048_577);
    assert_equal!(rt, text.capacity(), 1_048_577);
}

/// Asserts that the next records are these texts, inline, and that no more come.
fn assert_rest(rt: &impl Abort, mut records: Records<&[u8]>, texts: &[&str]) {
    for text in texts {
        let item = records.next().expect(rt, "no end");
        assert_that!(rt, is_inline(&item.expect(rt, "a text"), text));
    }
    assert_that!(rt, records.next().is_none());
}

/// Asserts that the first record of some bytes fails, and that its text is then read as these records.
fn assert_unread(rt: &impl Abort, alloc: Global, bytes: &[u8], texts: &[&str]) {
    let mut records = Records::new(alloc, bytes);
    assert_fails(rt, &records.next().expect(rt, "no end"));
    assert_rest(rt, records, texts);
}

// The text contains five forms of `b`. When it fails, only its length is consumed, so they are read as records.
#[test]
fn a_text_for_which_there_is_no_memory_stays_unread(rt: HostRuntime) {
    let alloc = rt.alloc();
    let bytes = b"\x19\0\0\0\x01\0\0\0b\x01\0\0\0b\x01\0\0\0b\x01\0\0\0b\x01\0\0\0b\x01\0\0\0a";
    let hog = take_all(alloc).expect(&rt, "room for the list of blocks");
    assert_unread(&rt, alloc, bytes, &["b", "b", "b", "b", "b", "a"]);
    drop(hog);
}

#[test]
fn short_records_need_memory_only_to_be_collected(rt: HostRuntime) {
    let rt = &rt;
    let alloc = rt.alloc();
    let bytes = b"\x01\0\0\0a\0\0\0\0\x02\0\0\0Hi".as_slice();
    let hog = take_all(alloc).expect(rt, "room for the list of blocks");
    assert_rest(rt, Records::new(alloc, bytes), &["a", "", "Hi"]);
    assert_fails(rt, &Records::new(alloc, bytes).into_vec());
    drop(hog);
}
