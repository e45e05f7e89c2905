//! Trying a line: with no memory, with its first allocation granted, with its first two, and so on until its call
//! succeeds.

use crate::calls::{By, reply};
use crate::constructors::make;
use crate::conversions::leave;
use crate::edits::edit_of;
use crate::extending::extend;
use crate::failed_cases::Faults;
use crate::memory::Ration;
use crate::table::{Case, Expected, first_word};
use crate::values::{Start, is_seen, seen_of_source};
use crate::{allocating_cases, free_cases, interner, numbers, records, strings};
use compact_edit::{Edit, Reply, run};
use compact_str::{CompactString, Standard};
use std::alloc::{AllocError, Global};

/// The outcome of a call that makes a value.
#[derive(Drop)]
pub enum Made {
    Value(CompactString),
    Refused,
    /// It failed for another reason than memory.
    Fault,
    /// There is no call of this name.
    Unknown,
}

/// A process where lines are tried one by one, with no memory but what is granted.
#[derive(Drop)]
pub struct Trial {
    alloc: Global,
    ration: Ration,
    replies: Vec<Reply<Standard>>,
    faults: Faults,
}

impl Trial {
    /// Takes all memory.
    pub fn new(alloc: Global, faults: Faults) -> Result<Trial, AllocError> {
        let replies = Vec::with_capacity(alloc, 4)?;
        Ok(Trial {
            alloc,
            ration: Ration::new(alloc)?,
            replies,
            faults,
        })
    }

    /// Frees all memory.
    pub fn finish(self) -> Faults {
        self.faults
    }

    /// Tries the cases in functions.
    pub fn apart(&mut self) {
        allocating_cases::cases(self.alloc, &mut self.ration, &mut self.faults);
        free_cases::cases(self.alloc, &mut self.ration, &mut self.faults);
        numbers::cases(self.alloc, &mut self.faults);
        interner::cases(self.alloc, &mut self.ration, &mut self.faults);
        strings::cases(self.alloc, &mut self.ration, &mut self.faults);
        records::cases(self.alloc, &mut self.ration, &mut self.faults);
    }

    /// Tries each line in turn.
    pub fn cases(&mut self, cases: &[Case<'_>]) {
        for case in cases {
            self.case(case);
        }
    }

    fn case(&mut self, case: &Case<'_>) {
        self.faults.begin(case.line);
        let is_low = self.ration.is_low();
        self.faults.expect(
            !is_low,
            "few blocks are left to grant: keep more in `memory.rt`",
        );
        match case.start {
            Some(start) => self.starts(case, start),
            None => self.makes(case),
        }
        self.faults.end();
        self.ration.take_rest();
    }

    /// Tries a line that starts from a value.
    fn starts(&mut self, case: &Case<'_>, start: Start<'_>) {
        match case.expected {
            Expected::Left(text) => self.leaves(case, start, text),
            Expected::Kept => self.keeps(case, start),
            Expected::Refused(count) => self.runs(case, start, Some(count)),
            Expected::Unrun => self.runs(case, start, None),
            _ => self.tries_call(case, start),
        }
    }

    /// Tries a call on a value.
    fn tries_call(&mut self, case: &Case<'_>, start: Start<'_>) {
        if let Some(edit) = edit_of(case.call, &case.listed) {
            self.edits(case, start, &[edit]);
        } else if case.name == "run" {
            self.edits_by_run(case, start);
        } else {
            self.tries(case, start, By::Name);
        }
    }

    /// Tries an edit by `run` alone.
    fn edits_by_run(&mut self, case: &Case<'_>, start: Start<'_>) {
        let (_, call) = first_word(case.call);
        match edit_of(call, &case.listed) {
            Some(edit) => self.tries(case, start, By::Run(&[edit])),
            None => self.faults.expect(false, "there is no such edit"),
        }
    }

    /// Tries an edit. A shrink that allocates is tried as a shrink.
    fn edits(&mut self, case: &Case<'_>, start: Start<'_>, edits: &[Edit<'_, Standard>; 1]) {
        match case.name {
            "shrink_to" | "shrink_to_fit" if !case.allocations.is_empty() => {
                self.shrinks(case, start, By::Run(edits));
                self.shrinks(case, start, By::Edit(&edits[0]));
            }
            "drain" => self.tries(case, start, By::Edit(&edits[0])),
            _ => {
                self.tries(case, start, By::Run(edits));
                self.tries(case, start, By::Edit(&edits[0]));
                self.sees_source(case);
            }
        }
    }

    /// Expects the source of a clone unchanged.
    fn sees_source(&mut self, case: &Case<'_>) {
        if let Some(value) = case.listed.value() {
            self.faults
                .expect_value(is_seen(value, seen_of_source(case.word(0))), value);
        }
    }

    /// Expects the call to fail at each allocation, leaving the value unchanged, and then to succeed.
    fn tries(&mut self, case: &Case<'_>, start: Start<'_>, by: By<'_, '_>) {
        if let Some(mut value) = self.start(start) {
            self.refuses(case, start, by, &mut value);
            self.faults.granted = case.allocations.len();
            self.replies(case, by, &mut value);
            self.is_left(&value, case);
        }
        self.ration.take_rest();
    }

    /// Expects the call to fail at each allocation, then grants that one.
    fn refuses(
        &mut self,
        case: &Case<'_>,
        start: Start<'_>,
        by: By<'_, '_>,
        value: &mut CompactString,
    ) {
        for (granted, allocation) in case.allocations.iter().enumerate() {
            self.faults.granted = granted;
            let is_refused = matches!(reply(case, by, value, &mut self.replies), Reply::Refused(_));
            self.faults.expect(is_refused, "it is not refused");
            self.is_same(value, start);
            self.ration.grant(*allocation);
        }
    }

    /// Expects the reply of the line.
    fn replies(&mut self, case: &Case<'_>, by: By<'_, '_>, value: &mut CompactString) {
        let expected = reply(case, by, value, &mut self.replies);
        self.expects_reply(&expected, case.expected);
    }

    /// Expects a shrink to succeed without memory, changing nothing, and to shrink once its allocation is granted.
    fn shrinks(&mut self, case: &Case<'_>, start: Start<'_>, by: By<'_, '_>) {
        if let Some(mut value) = self.start(start) {
            self.replies(case, by, &mut value);
            self.is_same(&value, start);
            self.ration
                .grant_first(&case.allocations, case.allocations.len());
            self.replies(case, by, &mut value);
            self.is_left(&value, case);
        }
        self.ration.take_rest();
    }

    /// Expects the call to fail at each allocation, and then to make the value.
    fn makes(&mut self, case: &Case<'_>) {
        self.faults.expect(
            matches!(case.expected, Expected::Made | Expected::TooLarge),
            "no call without a value has this result",
        );
        for (granted, allocation) in case.allocations.iter().enumerate() {
            self.faults.granted = granted;
            let is_refused = matches!(make(case, self.alloc), Made::Refused);
            self.faults.expect(is_refused, "it is not refused");
            self.ration.grant(*allocation);
        }
        self.faults.granted = case.allocations.len();
        match make(case, self.alloc) {
            Made::Value(value) => self.is_left(&value, case),
            Made::Refused => self.faults.expect(
                matches!(case.expected, Expected::TooLarge),
                "it is refused",
            ),
            Made::Fault => self.faults.expect(false, "it fails for another reason"),
            Made::Unknown => self.faults.expect(false, "there is no such call"),
        }
    }

    /// Expects the value back at each allocation, and then its text.
    fn leaves(&mut self, case: &Case<'_>, start: Start<'_>, text: &str) {
        let Some(mut value) = self.start(start) else {
            return;
        };
        for (granted, allocation) in case.allocations.iter().enumerate() {
            self.faults.granted = granted;
            match leave(value, case.name, text) {
                Ok(_) => {
                    self.faults.expect(false, "it is not refused");
                    return;
                }
                Err(back) => value = back,
            }
            self.is_same(&value, start);
            self.ration.grant(*allocation);
        }
        self.faults.granted = case.allocations.len();
        match leave(value, case.name, text) {
            Ok(is_same) => self.faults.expect(is_same, "another text leaves"),
            Err(back) => self.faults.expect_value(false, &back),
        }
    }

    /// Expects each value of the line, with none of the allocations granted, with one, and so on.
    fn keeps(&mut self, case: &Case<'_>, start: Start<'_>) {
        let is_whole = case.states.len() == case.allocations.len().saturating_add(1);
        self.faults.expect(
            is_whole,
            "there is not one state more than there are requests",
        );
        for (granted, seen) in case.states.iter().enumerate() {
            if let Some(mut value) = self.start(start) {
                self.faults.granted = granted;
                self.ration.grant_first(&case.allocations, granted);
                let is_done = extend(case, &mut value);
                self.faults.expect(
                    is_done == (granted == case.allocations.len()),
                    "it ends otherwise",
                );
                self.faults.expect_value(is_seen(&value, *seen), &value);
            }
            self.ration.take_rest();
        }
    }

    /// Runs a list of two edits with all allocations granted, of which `refused` fail; `None` if the list does.
    fn runs(&mut self, case: &Case<'_>, start: Start<'_>, refused: Option<usize>) {
        let (_, calls) = first_word(case.call);
        let (first, last) = calls.split_once(" ; ").unwrap_or((calls, ""));
        match (edit_of(first, &case.listed), edit_of(last, &case.listed)) {
            (Some(first), Some(last)) => self.runs_both(case, start, &[first, last], refused),
            _ => self.faults.expect(false, "there is no such edit"),
        }
    }

    fn runs_both(
        &mut self,
        case: &Case<'_>,
        start: Start<'_>,
        edits: &[Edit<'_, Standard>],
        refused: Option<usize>,
    ) {
        let Some(mut value) = self.start(start) else {
            return;
        };
        let mut replies = Vec::new(self.alloc);
        self.ration
            .grant_first(&case.allocations, case.allocations.len());
        let is_run = run(&mut value, edits, &mut replies).is_ok();
        self.faults.expect(
            is_run == refused.is_some(),
            "the list is refused, or is not",
        );
        let count = if is_run { edits.len() } else { 0 };
        self.faults
            .expect(replies.len() == count, "there are more replies, or less");
        self.faults.expect(
            count_refused(&replies) == refused.unwrap_or(0),
            "more are refused, or less",
        );
        self.is_left(&value, case);
        drop(value);
        drop(replies);
    }

    /// Makes the value to start from.
    fn start(&mut self, start: Start<'_>) -> Option<CompactString> {
        self.faults.granted = 0;
        let value = start.make(&mut self.ration, self.alloc);
        let is_made = match &value {
            Some(value) => is_seen(value, start.seen()),
            None => false,
        };
        self.faults
            .expect(is_made, "there is no such value to start from");
        value
    }

    /// Expects the value unchanged.
    fn is_same(&mut self, value: &CompactString, start: Start<'_>) {
        self.faults
            .expect_value(is_seen(value, start.seen()), value);
    }

    /// Expects the result of the line.
    fn expects_reply(&mut self, reply: &Reply<Standard>, expected: Expected<'_>) {
        let (holds, instead) = match reply {
            Reply::Done => (matches!(expected, Expected::Done), "it is done"),
            Reply::Char(taken) => (
                matches!(expected, Expected::Char(wanted) if wanted == *taken),
                "it returns another character",
            ),
            Reply::Text(text) => {
                self.faults.expect_value(is_text(expected, text), text);
                return;
            }
            Reply::Refused(_) => (matches!(expected, Expected::TooLarge), "it is refused"),
            Reply::BadPosition => (
                matches!(expected, Expected::BadPosition),
                "there is no such position, or no such call",
            ),
        };
        self.faults.expect(holds, instead);
    }

    /// Expects the value after the call.
    fn is_left(&mut self, value: &CompactString, case: &Case<'_>) {
        match case.states.first() {
            Some(seen) => self.faults.expect_value(is_seen(value, *seen), value),
            None => self.faults.expect_value(false, value),
        }
    }
}

/// Returns `true` if the line's result is that text, in its place.
fn is_text(expected: Expected<'_>, text: &CompactString) -> bool {
    match expected {
        Expected::Text(wanted) => is_seen(text, wanted),
        _ => false,
    }
}

/// Counts the edits that failed.
fn count_refused(replies: &[Reply<Standard>]) -> usize {
    let mut count = 0usize;
    for reply in replies {
        if matches!(reply, Reply::Refused(_)) {
            count = count.saturating_add(1);
        }
    }
    count
}
