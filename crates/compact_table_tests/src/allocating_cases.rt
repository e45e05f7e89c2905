//! Cases with allocations that the table cannot express.

use crate::constructors::read_json;
use crate::failed_cases::Faults;
use crate::memory::Allocation::{More, New};
use crate::memory::Ration;
use crate::try_line::Made;
use crate::values::{Seen, ascii_text, digits, heap, inline, is_seen};
use compact_edit::run_pushes;
use compact_str::{CompactString, Standard, append_all};
use serde_json::{Value, json};
use std::alloc::Global;
use std::boxed::BoxedStr;

/// 30 ASCII characters, then 40 digits twice.
const PUSHED: &str =
    "abcdefghijklmnopqrstuvwxyzABCD01234567890123456789012345678901234567890123456789012345678901234567890123456789";

/// Runs these cases.
pub fn cases(alloc: Global, ration: &mut Ration, faults: &mut Faults) {
    report_case(
        copies_box(alloc, ration),
        ration,
        faults,
        "a box is returned or copied",
    );
    report_case(
        is_no_string(alloc),
        ration,
        faults,
        "a JSON number is no string",
    );
    report_case(
        are_appended(alloc, ration),
        ration,
        faults,
        "a string keeps the values before a refused one",
    );
    report_case(
        are_pushed(alloc, ration),
        ration,
        faults,
        "texts are pushed one after another",
    );
}

/// Reports a case, and takes back unused grants.
pub fn report_case(holds: bool, ration: &mut Ration, faults: &mut Faults, name: &str) {
    faults.apart(name, holds);
    ration.take_rest();
}

/// Converts a box, or returns it if allocation fails.
pub fn unboxed(alloc: Global, text: BoxedStr) -> Result<CompactString, BoxedStr> {
    CompactString::from_boxed_str(alloc, text).map_err(|back| back.value)
}

/// Returns `true` if a box is returned when allocation fails, and copied when it is granted.
fn copies_box(alloc: Global, ration: &mut Ration) -> bool {
    ration.grant(New(30));
    let boxed = BoxedStr::from_str(alloc, ascii_text(0, 30));
    ration.take_rest();
    match boxed {
        Ok(boxed) => is_returned(alloc, ration, boxed),
        Err(_) => false,
    }
}

fn is_returned(alloc: Global, ration: &mut Ration, boxed: BoxedStr) -> bool {
    match unboxed(alloc, boxed) {
        Ok(_) => false,
        Err(back) => is_copied(alloc, ration, back),
    }
}

fn is_copied(alloc: Global, ration: &mut Ration, boxed: BoxedStr) -> bool {
    let is_same = boxed.as_str() == ascii_text(0, 30);
    ration.grant(New(32));
    let holds = match unboxed(alloc, boxed) {
        Ok(value) => is_seen(&value, heap(32, ascii_text(0, 30))),
        Err(_) => false,
    };
    ration.take_rest();
    holds && is_same
}

/// Returns `true` if a number is distinguished from a failed allocation, without memory.
fn is_no_string(alloc: Global) -> bool {
    match json!(in alloc; 1) {
        Ok(number) => is_fault(alloc, &number),
        Err(_) => false,
    }
}

fn is_fault(alloc: Global, json: &Value) -> bool {
    matches!(read_json(json, alloc), Made::Fault)
}

/// Returns `true` if a line to which values are appended has the right length after each number of grants.
fn are_appended(alloc: Global, ration: &mut Ration) -> bool {
    let mut holds = true;
    for (granted, len) in [0, 30, 70, 110].iter().enumerate() {
        ration.grant_first(&[New(30), More(70), More(140)], granted);
        holds &= is_appended(alloc, granted == 3, *len);
        ration.take_rest();
    }
    holds
}

/// Appends 30, 40 and 40 bytes to an empty line.
fn is_appended(alloc: Global, is_whole: bool, len: usize) -> bool {
    let mut line = String::new(alloc);
    append(alloc, &mut line) == is_whole && line.as_str() == front(len)
}

fn append(alloc: Global, line: &mut String) -> bool {
    let first = CompactString::const_new(alloc, ascii_text(0, 30));
    let other = CompactString::const_new(alloc, digits());
    append_all(line, [&first, &other, &other]).is_ok()
}

/// Returns the first `len` bytes of what is appended or pushed.
fn front(len: usize) -> &'static str {
    PUSHED.get(..len).unwrap_or("")
}

/// Returns `true` if pushes of 30, 40 and 40 bytes leave the right value after each number of grants.
fn are_pushed(alloc: Global, ration: &mut Ration) -> bool {
    let allocations = [New(32), More(70), More(110)];
    let mut holds = is_pushed(alloc, 3, 0, inline(""));
    for (granted, moved, capacity, len) in [(1, 0, 32, 30), (2, 30, 70, 70), (3, 100, 110, 110)] {
        ration.grant_first(&allocations, granted);
        holds &= is_pushed(alloc, 3 - granted, moved, heap(capacity, front(len)));
        ration.take_rest();
    }
    holds
}

fn is_pushed(alloc: Global, refused: usize, moved: u64, seen: Seen<'_>) -> bool {
    let texts = [ascii_text(0, 30), digits(), digits()];
    let report = run_pushes::<Standard>(alloc, &texts);
    is_seen(&report.value, seen) && report.moved == moved && report.refused == refused
}
