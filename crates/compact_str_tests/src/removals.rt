//! Removing and changing parts of a text.

use compact_asserts::{assert_equal, assert_that, that, that_for};
use compact_str::{CompactString, Drain, Standard};
use compact_testing::checks::{is_at, is_heap, is_inline};
use compact_testing::values::{place_of, short, value_of};
use std::ops::Bound;
use std::ops::Bound::{Excluded, Included, Unbounded};
use std::process::Abort;

/// Drains a valid range.
fn drain<'a>(
    rt: &impl Abort,
    value: &'a mut CompactString,
    start: Bound<usize>,
    end: Bound<usize>,
) -> Drain<'a, Standard> {
    that(value.check_range(start, end).is_some()).expect(rt, "it holds");
    value.drain(start, end).expect(rt, "memory")
}

/// Drains the middle of a greeting.
fn greeted<'a>(rt: &impl Abort, value: &'a mut CompactString) -> Drain<'a, Standard> {
    drain(rt, value, Included(5), Excluded(12))
}

/// Asserts what a drain yields from its front, back and middle, and the value it leaves, with place and capacity
/// unchanged. Its hint is at most the bytes, and at least a quarter of them, rounded up.
fn assert_drained(
    rt: &impl Abort,
    value: &mut CompactString,
    (start, end): (usize, usize),
    (first, rest, last): (char, &str, char),
    left: &str,
) {
    let (place, capacity) = (place_of(value), value.capacity());
    let count = end.saturating_sub(start);
    let mut drained = drain(rt, value, Included(start), Excluded(end));
    assert_that!(rt, drained.size_hint() == (count.div_ceil(4), Some(count)));
    assert_equal!(rt, drained.next(), Some(first));
    assert_equal!(rt, drained.next_back(), Some(last));
    assert_equal!(rt, drained.as_str(), rest);
    drop(drained);
    assert_that!(rt, is_at(value, place, capacity, left));
}

#[test]
fn a_drain_returns_characters_from_both_ends(rt: HostRuntime) {
    let mut value = short(rt.alloc(), "Hello, world!");
    assert_drained(&rt, &mut value, (5, 12), (',', " worl", 'd'), "Hello!");
    assert_that!(&rt, is_inline(&value, "Hello!"));
}

/// Counts the drained characters. The length of what is left shows the proof that the count fits.
#[tactic(auto, using(crate::proofs::Counts::counting))]
fn drained_count(rt: &impl Abort, value: &mut CompactString) -> usize {
    let drained = greeted(rt, value);
    let _len = drained.as_str().len();
    drained.count()
}

#[test]
fn a_drain_counts_what_is_left(rt: HostRuntime) {
    let mut value = short(rt.alloc(), "Hello, world!");
    assert_equal!(&rt, drained_count(&rt, &mut value), 7);
    assert_that!(&rt, is_inline(&value, "Hello!"));
}

#[test]
fn a_drain_shows_what_is_left(rt: HostRuntime) {
    let rt = &rt;
    let mut value = short(rt.alloc(), "Hello, world!");
    let mut drained = greeted(rt, &mut value);
    assert_equal!(rt, drained.next(), Some(','));
    assert_equal!(rt, drained.as_str(), " world");
    drop(drained);
    assert_that!(rt, is_inline(&value, "Hello!"));
}

#[test]
fn the_last_of_a_drain_is_its_last(rt: HostRuntime) {
    let mut value = short(rt.alloc(), "Hello, world!");
    assert_equal!(&rt, greeted(&rt, &mut value).last(), Some('d'));
    assert_that!(&rt, is_inline(&value, "Hello!"));
}

#[test]
fn the_last_of_a_drain_from_the_back_is_its_first(rt: HostRuntime) {
    let mut value = short(rt.alloc(), "Hello, world!");
    assert_equal!(&rt, greeted(&rt, &mut value).rev().last(), Some(','));
    assert_that!(&rt, is_inline(&value, "Hello!"));
}

#[test]
fn a_drain_prints_what_is_left(rt: HostRuntime) {
    let alloc = rt.alloc();
    let mut value = short(alloc, "Hello, world!");
    let mut printed = short(alloc, "");
    let drained = greeted(&rt, &mut value);
    assert_that!(&rt, write!(printed, "{drained:>9}{drained:?}").is_ok());
    drop(drained);
    assert_that!(&rt, is_inline(&printed, ", worldDrain(\", world\")"));
}

#[test]
fn the_debug_of_a_drain_escapes(rt: HostRuntime) {
    let alloc = rt.alloc();
    let mut value = short(alloc, "a\"b\nc");
    let mut printed = short(alloc, "");
    let drained = drain(&rt, &mut value, Included(1), Excluded(4));
    assert_that!(&rt, write!(printed, "{drained:?}").is_ok());
    drop(drained);
    assert_that!(&rt, is_inline(&printed, "Drain(\"\\\"b\\n\")"));
}

#[test]
fn the_ends_of_a_drain_meet(rt: HostRuntime) {
    let rt = &rt;
    let mut value = short(rt.alloc(), "𝄞🦄𝄢");
    let mut drained = drain(rt, &mut value, Unbounded, Unbounded);
    for (step, is_last, wanted) in [
        (1, true, Some('𝄢')),
        (2, false, Some('𝄞')),
        (3, false, Some('🦄')),
        (4, false, None),
        (5, true, None),
        (6, false, None),
    ] {
        let given = if is_last {
            drained.next_back()
        } else {
            drained.next()
        };
        that_for(step, given == wanted).expect(rt, "it holds");
    }
    drop(drained);
    assert_that!(rt, is_inline(&value, ""));
}

#[test]
fn a_drain_of_a_long_text_returns_its_characters(rt: HostRuntime) {
    let rt = &rt;
    let alloc = rt.alloc();
    let mut value = value_of(alloc, "abcdefghijklmnopqrstuvwxyzABCD").expect(rt, "memory");
    assert_that!(rt, value.is_heap_allocated());
    let taken = ('c', "defghijklmnopqrstuvwxyzA", 'B');
    assert_drained(rt, &mut value, (2, 28), taken, "abCD");
    let mut value = value_of(alloc, "aéaéaéaéaéaéaéaéaé€").expect(rt, "memory");
    assert_that!(rt, value.is_heap_allocated());
    let taken = ('é', "aéaéaéaéaéaéaéaé", '€');
    assert_drained(rt, &mut value, (1, 30), taken, "a");
}

#[test]
fn retain_calls_its_closure_once_for_each_character(rt: HostRuntime) {
    let mut value = short(rt.alloc(), "äb𝄞d€");
    let mut asked: usize = 0;
    let kept = value.retain(|character| {
        asked = asked.saturating_add(1);
        character != 'ä' && character != 'd'
    });
    assert_that!(&rt, kept.is_ok());
    assert_equal!(&rt, asked, 5);
    assert_that!(&rt, is_inline(&value, "b𝄞€"));
}

#[test]
fn retain_calls_its_closure_in_order_on_the_heap(rt: HostRuntime) {
    let rt = &rt;
    let text = "abcdefghijklmnopqrstuvwxyzäö€𝄞";
    let mut value = value_of(rt.alloc(), text).expect(rt, "memory");
    let mut expected = text.chars();
    let mut in_order = true;
    let kept = value.retain(|character| {
        in_order = in_order && expected.next() == Some(character);
        !character.is_ascii()
    });
    assert_that!(rt, kept.is_ok());
    assert_that!(rt, in_order);
    assert_equal!(rt, expected.next(), None);
    assert_that!(rt, is_heap(&value, 37, "äö€𝄞"));
}
