//! Texts of a reader collected into a vector. If an allocation fails, a prefix of the bytes is consumed.

use crate::allocating_cases::report_case;
use crate::failed_cases::Faults;
use crate::memory::Allocation::{More, New};
use crate::memory::{Allocation, Ration};
use crate::values::{ascii_text, digits, heap, inline, is_seen};
use compact_ext::wire::{Records, WireError};
use compact_str::CompactString;
use std::alloc::Global;

/// The forms of `abc`, of 30 letters, of 40 digits, of the empty text and of `b`.
const FORMS: &[u8] =
    b"\x03\0\0\0abc\x1E\0\0\0abcdefghijklmnopqrstuvwxyzABCD\x28\0\0\x000123456789012345678901234567890123456789\0\0\0\0\x01\0\0\0b";

/// The allocations: a vector of four values, the two long texts, and a vector of eight.
const ASKS: [Allocation; 4] = [New(128), New(30), New(40), More(256)];

/// Runs these cases.
pub fn cases(alloc: Global, ration: &mut Ration, faults: &mut Faults) {
    report_case(
        fail_in_turn(alloc, ration),
        ration,
        faults,
        "records are collected",
    );
}

/// Returns `true` if the right bytes are consumed: a whole form if the vector has no room for its text, and only the
/// length if there is no room for the text itself.
fn fail_in_turn(alloc: Global, ration: &mut Ration) -> bool {
    let mut holds = true;
    for (granted, taken) in [7, 11, 45, 94, 94].iter().enumerate() {
        ration.grant_first(&ASKS, granted);
        holds &= are_read(alloc, granted == ASKS.len(), *taken);
        ration.take_rest();
    }
    holds
}

/// Returns `true` if the five texts are read when they must be, and `taken` bytes of their forms are consumed.
fn are_read(alloc: Global, is_whole: bool, taken: usize) -> bool {
    let mut rest = FORMS;
    let outcome = Records::new(alloc, &mut rest).into_vec();
    are_texts_or_refused(outcome, is_whole) && Some(rest) == FORMS.get(taken..)
}

fn are_texts_or_refused(outcome: Result<Vec<CompactString>, WireError>, is_whole: bool) -> bool {
    match outcome {
        Ok(texts) => is_whole && are_texts(texts.as_slice()),
        Err(WireError::Reserve(_)) => !is_whole,
        Err(_) => false,
    }
}

/// Returns `true` if these are the five texts, each long one in a buffer that just fits.
fn are_texts(texts: &[CompactString]) -> bool {
    let wanted = [
        inline("abc"),
        heap(30, ascii_text(0, 30)),
        heap(40, digits()),
        inline(""),
        inline("b"),
    ];
    let mut holds = texts.len() == wanted.len();
    for (text, seen) in texts.iter().zip(wanted) {
        holds &= is_seen(text, seen);
    }
    holds
}
