//! Cases without allocations that the table cannot express; every allocation fails.

use crate::allocating_cases::{report_case, unboxed};
use crate::failed_cases::Faults;
use crate::interner::{TABLE, finds};
use crate::memory::Allocation::New;
use crate::memory::Ration;
use crate::values::{Seen, Start, ascii_text, fitted, fixed, heap, inline, is_seen};
use compact_edit::{Interner, Reply, run};
use compact_ext::wire::write_wire;
use compact_str::{CompactString, Standard};
use compact_testing::checks::hash_of;
use compact_testing::values::string_with_room;
use std::alloc::{AllocError, Global};
use std::borrow::CowStr;
use std::boxed::BoxedStr;
use std::cmp::Ordering;
use std::ops::Bound::{Excluded, Included};

/// One value for each place, and one on the heap that was longer.
const PLACES: [Start<'static>; 4] = [Start::Inline, Start::Static, Start::Heap, Start::Shortened];

/// Runs these cases in the order of the table's list.
pub fn cases(alloc: Global, ration: &mut Ration, faults: &mut Faults) {
    report_case(
        copies_box(alloc, ration),
        ration,
        faults,
        "1: a box is copied",
    );
    report_case(
        takes_texts(alloc),
        ration,
        faults,
        "2: texts of the program are taken",
    );
    report_case(
        takes_strings(alloc, ration),
        ration,
        faults,
        "2: strings are taken",
    );
    report_case(
        uses_values(alloc, ration, Use::Look),
        ration,
        faults,
        "3: values are looked at",
    );
    later_cases(alloc, ration, faults);
}

/// Those of 8 and 13.
fn later_cases(alloc: Global, ration: &mut Ration, faults: &mut Faults) {
    report_case(
        compares(alloc, ration),
        ration,
        faults,
        "8: values are compared",
    );
    report_case(
        walks_drain(alloc, ration),
        ration,
        faults,
        "8: a drain is walked",
    );
    report_case(
        uses_values(alloc, ration, Use::Borrow),
        ration,
        faults,
        "13: a value is borrowed",
    );
    report_case(
        writes(alloc, ration),
        ration,
        faults,
        "13: a value is written",
    );
    report_case(
        uses_values(alloc, ration, Use::Run),
        ration,
        faults,
        "13: no edits are run",
    );
    report_case(
        finds_name(alloc, ration),
        ration,
        faults,
        "13: a known name is found",
    );
}

/// 1: a box.
fn copies_box(alloc: Global, ration: &mut Ration) -> bool {
    ration.grant(New(24));
    match BoxedStr::from_str(alloc, ascii_text(0, 24)) {
        Ok(boxed) => is_made(unboxed(alloc, boxed).ok(), inline(ascii_text(0, 24))),
        Err(_) => false,
    }
}

/// Returns `true` if a value is made and looks so.
fn is_made(value: Option<CompactString>, seen: Seen<'_>) -> bool {
    match value {
        Some(value) => is_seen(&value, seen),
        None => false,
    }
}

/// 2: literals, and the empty text.
fn takes_texts(alloc: Global) -> bool {
    let (first, second) = (ascii_text(0, 24), ascii_text(0, 30));
    let mut holds = is_seen(&CompactString::const_new(alloc, first), inline(first));
    holds &= is_seen(&CompactString::const_new(alloc, second), fixed(second));
    holds && is_seen(&CompactString::default(alloc), inline(""))
}

/// 2: strings.
fn takes_strings(alloc: Global, ration: &mut Ration) -> bool {
    let (text, seen) = (ascii_text(0, 30), fitted(ascii_text(0, 30)));
    let mut holds = takes_string(string(alloc, ration, 3, "abc"), inline("abc"));
    holds &= takes_string(string(alloc, ration, 30, text), seen);
    holds &= takes_buffer(string(alloc, ration, 30, text), seen);
    holds &= takes_buffer(string(alloc, ration, 100, ""), heap(100, ""));
    holds && takes_cow(alloc, string(alloc, ration, 30, text), seen)
}

/// Creates a string of just this capacity, granting its allocation.
fn string(
    alloc: Global,
    ration: &mut Ration,
    capacity: usize,
    text: &str,
) -> Result<String, AllocError> {
    ration.take_rest();
    ration.grant(New(capacity));
    string_with_room(alloc, capacity, text)
}

fn takes_string(string: Result<String, AllocError>, seen: Seen<'_>) -> bool {
    match string {
        Ok(string) => is_seen(&CompactString::from(string), seen),
        Err(_) => false,
    }
}

fn takes_buffer(string: Result<String, AllocError>, seen: Seen<'_>) -> bool {
    match string {
        Ok(string) => is_seen(&CompactString::from_string_buffer(string), seen),
        Err(_) => false,
    }
}

fn takes_cow(alloc: Global, string: Result<String, AllocError>, seen: Seen<'_>) -> bool {
    match string {
        Ok(string) => {
            is_made(
                CompactString::from_cow(alloc, CowStr::Owned(string)).ok(),
                seen,
            )
        }
        Err(_) => false,
    }
}

/// Uses of a value of each place.
#[derive(Clone, Copy)]
enum Use {
    /// 3: its accessors.
    Look,
    /// 13: `as_cow`.
    Borrow,
    /// 13: a run of no edits.
    Run,
}

fn uses_values(alloc: Global, ration: &mut Ration, what: Use) -> bool {
    let mut holds = true;
    for start in &PLACES {
        holds &= match start.make(ration, alloc) {
            Some(mut value) => uses(&mut value, what, start.seen()),
            None => false,
        };
        ration.take_rest();
    }
    holds
}

fn uses(value: &mut CompactString, what: Use, seen: Seen<'_>) -> bool {
    match what {
        Use::Look => is_inspected(value, seen),
        Use::Borrow => value.as_cow().as_str() == seen.text,
        Use::Run => is_run(value) && is_seen(value, seen),
    }
}

/// Checks the accessors of an ASCII value of 3 bytes or more.
fn is_inspected(value: &CompactString, seen: Seen<'_>) -> bool {
    let mut holds = is_seen(value, seen);
    holds &= value.as_bytes() == seen.text.as_bytes();
    holds &= value.len() == seen.text.len() && !value.is_empty();
    holds &= Some(value.capacity()) == seen.capacity;
    holds &= value.is_heap_allocated() == (seen.place == "heap");
    holds &= value.as_static_str().is_some() == (seen.place == "static");
    holds &= value.is_char_boundary(2);
    holds && value.check_range(Included(1), Included(2)) == Some((1, 3))
}

/// 8: equality, order and hash.
fn compares(alloc: Global, ration: &mut Ration) -> bool {
    let first = CompactString::const_new(alloc, ascii_text(0, 30));
    let other = CompactString::const_new(alloc, ascii_text(0, 3));
    let is_less = other != first && other < first;
    is_less && is_copy_same(alloc, ration, &first)
}

/// Returns `true` if a value on the heap equals another.
fn is_copy_same(alloc: Global, ration: &mut Ration, first: &CompactString) -> bool {
    match Start::Heap.make(ration, alloc) {
        Some(second) => is_same(first, &second),
        None => false,
    }
}

/// Returns `true` if two values are equal.
fn is_same(first: &CompactString, second: &CompactString) -> bool {
    let is_equal = first == second && first.cmp(second) == Ordering::Equal;
    is_equal && hash_of(first) == hash_of(second)
}

/// 8: iterating a `Drain`, and its drop.
fn walks_drain(alloc: Global, ration: &mut Ration) -> bool {
    match Start::Heap.make(ration, alloc) {
        Some(mut value) => is_walked(&mut value) && is_seen(&value, heap(32, "aD")),
        None => false,
    }
}

fn is_walked(value: &mut CompactString) -> bool {
    if value.check_range(Included(1), Excluded(29)).is_none() {
        return false;
    }
    let Ok(mut drain) = value.drain(Included(1), Excluded(29)) else {
        return false;
    };
    let is_first = drain.next() == Some('b');
    let is_last = drain.next_back() == Some('C');
    is_first && is_last && drain.as_str() == ascii_text(2, 28)
}

/// 13: `write_wire`, into a list with room.
fn writes(alloc: Global, ration: &mut Ration) -> bool {
    let mut holds = true;
    for start in &PLACES {
        holds &= writes_value(alloc, ration, *start);
        ration.take_rest();
    }
    holds
}

fn writes_value(alloc: Global, ration: &mut Ration, start: Start<'_>) -> bool {
    ration.grant(New(34));
    let room = Vec::with_capacity(alloc, 34);
    ration.take_rest();
    match (start.make(ration, alloc), room) {
        (Some(value), Ok(room)) => is_written(&value, room, start.seen().text),
        _ => false,
    }
}

/// Returns `true` if the four bytes of the length are written, then the text.
fn is_written(value: &CompactString, room: Vec<u8>, text: &str) -> bool {
    let mut room = room;
    write_wire(value, &mut room).is_ok() && room.get(4..) == Some(text.as_bytes())
}

fn is_run(value: &mut CompactString) -> bool {
    let mut replies: Vec<Reply<Standard>> = Vec::new(value.allocator());
    run(value, &[], &mut replies).is_ok() && replies.is_empty()
}

/// 13: a known name.
fn finds_name(alloc: Global, ration: &mut Ration) -> bool {
    let mut names = Interner::new(alloc);
    ration.grant_first(&TABLE, TABLE.len());
    let is_new = finds(&mut names, ascii_text(0, 24), 0);
    ration.take_rest();
    is_new && finds(&mut names, ascii_text(0, 24), 0) && names.name(1).is_none() && names.len() == 1
}
