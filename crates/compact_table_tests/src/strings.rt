//! Values appended to a `String` or collected into one. If an allocation fails, it has the earlier texts.

use crate::allocating_cases::report_case;
use crate::failed_cases::Faults;
use crate::memory::Allocation::{More, New};
use crate::memory::{Allocation, Ration};
use crate::values::Start;
use compact_str::{CompactString, append_all};
use std::alloc::{AllocError, Global};

/// The call that appends or collects.
#[derive(Clone, Copy)]
enum Way {
    AppendAll,
    Extend,
    Collect,
}

/// `abc`, and 30 letters twice.
const TEXT: &str = "abcabcdefghijklmnopqrstuvwxyzABCDabcdefghijklmnopqrstuvwxyzABCD";

/// The allocations of an empty `String` to which these three texts are appended.
const ASKS: [Allocation; 3] = [New(8), More(33), More(66)];

/// Runs these cases.
pub fn cases(alloc: Global, ration: &mut Ration, faults: &mut Faults) {
    for (way, name) in [
        (Way::AppendAll, "values are appended to a string"),
        (Way::Extend, "a string is extended by values"),
        (Way::Collect, "a string is collected of values"),
    ] {
        report_case(fails_in_turn(alloc, ration, way), ration, faults, name);
    }
}

/// Returns `true` if none, one, two and all of the allocations leave the right part of the text. `collect` leaves all
/// or none.
fn fails_in_turn(alloc: Global, ration: &mut Ration, way: Way) -> bool {
    let mut holds = true;
    for (granted, len) in [0, 3, 33, 63].iter().enumerate() {
        holds &= match values(alloc, ration) {
            Ok(values) => {
                ration.grant_first(&ASKS, granted);
                is_given(alloc, way, values, granted == ASKS.len(), *len)
            }
            Err(_) => false,
        };
        ration.take_rest();
    }
    holds
}

/// Returns `abc` inline, 30 letters static, and 30 letters on the heap.
fn values(alloc: Global, ration: &mut Ration) -> Result<Vec<CompactString>, AllocError> {
    ration.grant(New(96));
    let mut values = Vec::with_capacity(alloc, 3)?;
    for start in [Start::Inline, Start::Static, Start::Heap] {
        if let Some(value) = start.make(ration, alloc) {
            values.push(value)?;
        }
    }
    Ok(values)
}

/// Returns `true` if the call succeeds when it must, and leaves the first `len` bytes of the text.
fn is_given(
    alloc: Global,
    way: Way,
    values: Vec<CompactString>,
    is_whole: bool,
    len: usize,
) -> bool {
    match way {
        Way::Collect => is_collected(alloc, values, is_whole),
        _ => is_appended(alloc, way, values, is_whole, len),
    }
}

fn is_collected(alloc: Global, values: Vec<CompactString>, is_whole: bool) -> bool {
    let line: Result<String, AllocError> = values.into_iter().collect(alloc);
    match line {
        Ok(line) => is_whole && line.as_str() == TEXT,
        Err(_) => !is_whole,
    }
}

fn is_appended(
    alloc: Global,
    way: Way,
    values: Vec<CompactString>,
    is_whole: bool,
    len: usize,
) -> bool {
    let mut line = String::new(alloc);
    let is_done = match way {
        Way::Extend => line.extend(values).is_ok(),
        _ => append_all(&mut line, values).is_ok(),
    };
    is_done == is_whole && TEXT.get(..len) == Some(line.as_str())
}
