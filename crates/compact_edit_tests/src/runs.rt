//! Runs of edits.

use compact_asserts::{assert_equal, assert_that};
use compact_edit::{Edit, Reply, run};
use compact_str::{CompactString, Standard};
use compact_testing::checks::{is_heap, is_inline};
use compact_testing::values::{ascii_text, short};
use std::alloc::Global;
use std::ops::Bound::{Excluded, Included};
use std::process::Abort;

/// Runs edits, and returns their replies.
fn replies_to(
    rt: &impl Abort,
    alloc: Global,
    value: &mut CompactString,
    edits: &[Edit<Standard>],
) -> Vec<Reply<Standard>> {
    let mut replies = Vec::new(alloc);
    run(value, edits, &mut replies).expect(rt, "memory");
    replies
}

#[test]
fn each_edit_of_a_list_is_run(rt: HostRuntime) {
    let rt = &rt;
    let alloc = rt.alloc();
    let mut value = short(alloc, ascii_text(3));
    let edits = [Edit::PushStr("a"), Edit::Reserve(100), Edit::ShrinkTo(50)];
    let replies = replies_to(rt, alloc, &mut value, &edits);
    let all = matches!(replies.as_slice(), [Reply::Done, Reply::Done, Reply::Done]);
    assert_that!(rt, all);
    assert_that!(rt, is_heap(&value, 50, ascii_text(4)));
}

/// Asserts that the only reply is this text, inline.
fn assert_text(rt: &impl Abort, replies: &[Reply<Standard>], text: &str) {
    let is = matches!(replies, [Reply::Text(given)] if is_inline(given, text));
    assert_that!(rt, is);
}

#[test]
fn a_range_is_drained(rt: HostRuntime) {
    let rt = &rt;
    let alloc = rt.alloc();
    let mut value = short(alloc, "Hello, world!");
    let edits = [Edit::Drain(Included(5), Excluded(12))];
    let replies = replies_to(rt, alloc, &mut value, &edits);
    assert_text(rt, &replies, ", world");
    assert_that!(rt, is_inline(&value, "Hello!"));
}

/// Returns a list of replies that fills its capacity.
fn full_replies(rt: &impl Abort, alloc: Global) -> Vec<Reply<Standard>> {
    let mut replies = Vec::with_capacity(alloc, 4).expect(rt, "memory");
    for _ in 0..replies.capacity() {
        replies.push(Reply::Done).expect(rt, "memory");
    }
    replies
}

#[test]
fn a_full_list_of_replies_grows(rt: HostRuntime) {
    let rt = &rt;
    let alloc = rt.alloc();
    let mut value = short(alloc, "ab");
    let mut replies = full_replies(rt, alloc);
    let count = replies.len();
    let edits = [Edit::Pop, Edit::Clear];
    run(&mut value, &edits, &mut replies).expect(rt, "memory");
    let added = replies.get(count..).unwrap_or(&[]);
    let are = matches!(added, [Reply::Char(Some('b')), Reply::Done]);
    assert_that!(rt, are);
    assert_that!(rt, is_inline(&value, ""));
}

#[test]
fn replies_that_fit_keep_the_capacity_of_their_list(rt: HostRuntime) {
    let rt = &rt;
    let alloc = rt.alloc();
    let mut value = short(alloc, "ab");
    let mut replies = Vec::with_capacity(alloc, 4).expect(rt, "memory");
    let capacity = replies.capacity();
    let edits = [Edit::Pop, Edit::Clear];
    run(&mut value, &edits, &mut replies).expect(rt, "memory");
    assert_equal!(rt, replies.capacity(), capacity);
}
