//! Runs of edits with no memory.

use compact_asserts::{assert_equal, assert_that};
use compact_edit::{Edit, Reply, run};
use compact_str::{CompactString, Standard};
use compact_testing::checks::{is_at, is_heap, is_inline, is_static};
use compact_testing::memory::take_all;
use compact_testing::values::{ascii_text, lasting, short, value_of};
use std::alloc::Global;
use std::ops::Bound::{Excluded, Included};
use std::process::Abort;

/// Returns a list with capacity for `count` replies.
fn room_for(rt: &impl Abort, alloc: Global, count: usize) -> Vec<Reply<Standard>> {
    Vec::with_capacity(alloc, count).expect(rt, "memory")
}

/// Runs edits for whose replies there is room.
fn run_all(
    rt: &impl Abort,
    value: &mut CompactString,
    edits: &[Edit<Standard>],
    replies: &mut Vec<Reply<Standard>>,
) {
    run(value, edits, replies).expect(rt, "room for the replies");
}

/// Runs the edit `Drain` of a range.
fn run_drain(
    rt: &impl Abort,
    value: &mut CompactString,
    first: usize,
    last: usize,
    replies: &mut Vec<Reply<Standard>>,
) {
    let edits = [Edit::Drain(Included(first), Excluded(last))];
    run_all(rt, value, &edits, replies);
}

/// Asserts that these are `count` times `Done`.
fn assert_done(rt: &impl Abort, replies: &[Reply<Standard>], count: usize) {
    assert_equal!(rt, replies.len(), count);
    for reply in replies {
        assert_that!(rt, matches!(reply, Reply::Done));
    }
}

/// Returns a list of replies that fills its capacity.
fn full_replies(rt: &impl Abort, alloc: Global) -> Vec<Reply<Standard>> {
    let mut replies = room_for(rt, alloc, 4);
    for _ in 0..replies.capacity() {
        replies.push(Reply::Done).expect(rt, "memory");
    }
    replies
}

#[test]
fn an_edit_without_room_for_its_reply_is_not_run(rt: HostRuntime) {
    let rt = &rt;
    let alloc = rt.alloc();
    let mut value = short(alloc, "abc");
    let mut replies = full_replies(rt, alloc);
    let hog = take_all(alloc).expect(rt, "room for the list of blocks");
    let outcome = run(&mut value, &[Edit::Clear], &mut replies);
    drop(hog);
    assert_that!(rt, outcome.is_err());
    assert_that!(rt, is_inline(&value, "abc"));
    assert_done(rt, &replies, 4);
}

/// Returns 40 replies with no room for nine more, even if an allocator rounds up.
fn forty_replies(rt: &impl Abort, alloc: Global) -> Vec<Reply<Standard>> {
    let mut replies = Vec::with_capacity(alloc, 40).expect(rt, "memory");
    for _ in 0..40 {
        replies.push(Reply::Done).expect(rt, "memory");
    }
    replies
}

/// Asserts that no edit of a list of nine is run.
fn is_not_begun(rt: &impl Abort, value: &mut CompactString, replies: &mut Vec<Reply<Standard>>) {
    let edits: [Edit<Standard>; 9] = [
        Edit::Clear,
        Edit::Clear,
        Edit::Clear,
        Edit::Clear,
        Edit::Clear,
        Edit::Clear,
        Edit::Clear,
        Edit::Clear,
        Edit::PushStr("x"),
    ];
    assert_that!(rt, run(value, &edits, replies).is_err());
}

/// An empty list needs no room.
#[test]
fn a_list_without_room_for_its_replies_is_not_begun(rt: HostRuntime) {
    let rt = &rt;
    let alloc = rt.alloc();
    let mut value = short(alloc, "abc");
    let mut replies = forty_replies(rt, alloc);
    let hog = take_all(alloc).expect(rt, "room for the list of blocks");
    is_not_begun(rt, &mut value, &mut replies);
    run_all(rt, &mut value, &[], &mut replies);
    drop(hog);
    assert_that!(rt, is_inline(&value, "abc"));
    assert_done(rt, &replies, 40);
}

/// A text of 29 bytes, of which the first two are one character.
fn text() -> &'static str {
    "äaaaaaaaaaaaaaaaaaaaaaaaaaaa"
}

/// Runs edits past the end of that text and within its first character.
fn run_bad_positions(
    rt: &impl Abort,
    value: &mut CompactString,
    replies: &mut Vec<Reply<Standard>>,
) {
    let edits = [
        Edit::Insert(30, 'b'),
        Edit::SplitOff(30),
        Edit::Insert(1, 'b'),
        Edit::InsertStr(1, ""),
        Edit::Remove(1),
        Edit::ReplaceRange(Included(1), Excluded(2), ""),
    ];
    run_all(rt, value, &edits, replies);
}

#[test]
fn a_bad_position_is_reported_before_an_allocation(rt: HostRuntime) {
    let rt = &rt;
    let alloc = rt.alloc();
    let mut lasting = CompactString::const_new(alloc, text());
    let mut made = value_of(alloc, text()).expect(rt, "memory");
    let mut replies = room_for(rt, alloc, 12);
    let hog = take_all(alloc).expect(rt, "room for the list of blocks");
    run_bad_positions(rt, &mut lasting, &mut replies);
    run_bad_positions(rt, &mut made, &mut replies);
    drop(hog);
    assert_that!(rt, is_at(&lasting, "static", 29, text()));
    assert_that!(rt, is_at(&made, "heap", 32, text()));
    assert_equal!(rt, replies.len(), 12);
    for reply in &replies {
        assert_that!(rt, matches!(reply, Reply::BadPosition));
    }
}

/// Asserts whether an edit failed.
fn assert_failed(rt: &impl Abort, replies: &[Reply<Standard>], place: usize, failed: bool) {
    let reply = replies.get(place).expect(rt, "a reply");
    assert_equal!(rt, matches!(reply, Reply::Refused(_)), failed);
}

#[test]
fn a_drain_fails_if_its_reply_needs_the_heap(rt: HostRuntime) {
    let rt = &rt;
    let alloc = rt.alloc();
    let mut value = value_of(alloc, ascii_text(60)).expect(rt, "memory");
    let mut replies = room_for(rt, alloc, 2);
    let hog = take_all(alloc).expect(rt, "room for the list of blocks");
    run_drain(rt, &mut value, 0, 25, &mut replies);
    run_drain(rt, &mut value, 0, 24, &mut replies);
    drop(hog);
    assert_failed(rt, replies.as_slice(), 0, true);
    assert_failed(rt, replies.as_slice(), 1, false);
    assert_that!(rt, is_heap(&value, 60, ascii_text(36)));
}

#[test]
fn a_drain_that_has_its_reply_fails_to_copy_the_rest(rt: HostRuntime) {
    let rt = &rt;
    let alloc = rt.alloc();
    let mut value = lasting(alloc, 80);
    let mut replies = room_for(rt, alloc, 1);
    let block = Vec::<u8>::with_capacity(alloc, 32).expect(rt, "a spare block");
    let hog = take_all(alloc).expect(rt, "room for the list of blocks");
    drop(block);
    run_drain(rt, &mut value, 0, 30, &mut replies);
    drop(hog);
    assert_failed(rt, replies.as_slice(), 0, true);
    assert_that!(rt, is_static(&value, ascii_text(80)));
}

#[test]
fn a_drain_of_60_bytes_fails_at_each_allocation(rt: HostRuntime) {
    let rt = &rt;
    let alloc = rt.alloc();
    let mut value = lasting(alloc, 60);
    let mut replies = room_for(rt, alloc, 2);
    let block = Vec::<u8>::with_capacity(alloc, 32).expect(rt, "a spare block");
    let hog = take_all(alloc).expect(rt, "room for the list of blocks");
    run_drain(rt, &mut value, 0, 30, &mut replies);
    drop(block);
    run_drain(rt, &mut value, 0, 30, &mut replies);
    drop(hog);
    assert_failed(rt, replies.as_slice(), 0, true);
    assert_failed(rt, replies.as_slice(), 1, true);
    assert_that!(rt, is_static(&value, ascii_text(60)));
}
