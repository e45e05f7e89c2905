//! The interner: on failure it keeps what was taken, and nothing else.

use crate::allocating_cases::report_case;
use crate::failed_cases::Faults;
use crate::memory::Allocation::{More, New};
use crate::memory::{Allocation, Ration};
use crate::values::ascii_text;
use compact_edit::{InternError, Interner};
use std::alloc::Global;

/// The allocations of an interner's first name, beside its copy.
pub const TABLE: [Allocation; 4] = [New(72), New(64), New(288), New(1)];

/// Runs the cases of the interner.
pub fn cases(alloc: Global, ration: &mut Ration, faults: &mut Faults) {
    report_case(
        takes_first(alloc, ration),
        ration,
        faults,
        "the first name allocations for the table",
    );
    report_case(
        takes_long(alloc, ration),
        ration,
        faults,
        "a long first name allocations for its copy before",
    );
    report_case(
        grows(alloc, ration),
        ration,
        faults,
        "the interner's table grows",
    );
    report_case(
        takes_lists(alloc, ration),
        ration,
        faults,
        "a list is taken up to the text that is refused",
    );
}

/// Returns `true` if interning a new text fails at each of its allocations, leaving the names unchanged, and then
/// returns the next number.
fn takes(
    ration: &mut Ration,
    names: &mut Interner,
    text: &str,
    allocations: &[Allocation],
) -> bool {
    let count = names.len();
    let mut holds = true;
    for allocation in allocations {
        holds &= matches!(names.intern(text), Err(InternError::Reserve(_)));
        holds &= names.len() == count;
        holds &= names.name(count as u32).is_none();
        ration.grant(*allocation);
    }
    holds &= finds(names, text, count as u32);
    ration.take_rest();
    holds
}

/// Returns `true` if a name has this number, with no further grant.
pub fn finds(names: &mut Interner, text: &str, number: u32) -> bool {
    match names.intern(text) {
        Ok(found) => found == number && names.name(number) == Some(text),
        Err(_) => false,
    }
}

fn takes_first(alloc: Global, ration: &mut Ration) -> bool {
    let mut names = Interner::new(alloc);
    let mut holds = takes(ration, &mut names, "a", &TABLE);
    holds &= finds(&mut names, "a", 0);
    holds &= takes(ration, &mut names, "", &[]);
    holds &= takes(ration, &mut names, ascii_text(0, 24), &[]);
    holds &= takes(ration, &mut names, ascii_text(0, 25), &[New(32)]);
    holds &= finds(&mut names, ascii_text(0, 25), 3);
    holds && finds(&mut names, "", 1)
}

fn takes_long(alloc: Global, ration: &mut Ration) -> bool {
    let mut names = Interner::new(alloc);
    let allocations = [New(32), TABLE[0], TABLE[1], TABLE[2], TABLE[3]];
    let holds = takes(ration, &mut names, ascii_text(0, 30), &allocations);
    holds && finds(&mut names, ascii_text(0, 30), 0)
}

fn grows(alloc: Global, ration: &mut Ration) -> bool {
    let mut names = Interner::new(alloc);
    let mut holds = takes(ration, &mut names, ascii_text(0, 0), &TABLE);
    for len in 1..9 {
        holds &= takes(ration, &mut names, ascii_text(0, len), &[]);
    }
    let allocations = [More(144), More(128), More(576)];
    holds &= takes(ration, &mut names, ascii_text(0, 9), &allocations);
    for len in 0..10 {
        holds &= finds(&mut names, ascii_text(0, len), len as u32);
    }
    holds
}

/// Checks how many names and numbers there are after each number of grants.
fn takes_lists(alloc: Global, ration: &mut Ration) -> bool {
    let allocations = [New(16), TABLE[0], TABLE[1], TABLE[2], TABLE[3], New(32)];
    let states = [(0, 0), (0, 0), (0, 0), (0, 0), (0, 0), (1, 1), (3, 4)];
    let mut holds = true;
    for (granted, (count, listed)) in states.iter().enumerate() {
        ration.grant_first(&allocations, granted);
        holds &= takes_list(alloc, granted == allocations.len(), *count, *listed);
        ration.take_rest();
    }
    holds
}

/// Returns `true` if a new interner takes a list as a whole or not, and then has `count` names and the first `listed`
/// numbers.
fn takes_list(alloc: Global, is_whole: bool, count: usize, listed: usize) -> bool {
    let mut names = Interner::new(alloc);
    let mut numbers = Vec::new(alloc);
    let is_taken = take_list(&mut names, &mut numbers);
    let first = [0, 1, 0, 2];
    is_taken == is_whole && names.len() == count && Some(numbers.as_slice()) == first.get(..listed)
}

fn take_list(names: &mut Interner, numbers: &mut Vec<u32>) -> bool {
    let texts = ["a", ascii_text(0, 30), "a", "b"];
    names.intern_all(&texts, numbers).is_ok()
}
