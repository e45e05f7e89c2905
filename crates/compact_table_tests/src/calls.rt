//! Calls on a value that are no edits, or an edit under another name.

use crate::edits::{call, flags_of};
use crate::long_texts::number;
use crate::table::Case;
use crate::within::reply_within;
use compact_edit::{Edit, Reply, run};
use compact_ext::{ToCompactString, ToCompactStringError};
use compact_str::{CompactString, Refused, ReserveError, Standard};
use std::fmt::Write;
use std::mem;

/// How a call on a value is made.
#[derive(Clone, Copy)]
pub enum By<'a, 'b> {
    /// One edit by `run`.
    Run(&'b [Edit<'a, Standard>]),
    /// An edit by its method.
    Edit(&'b Edit<'a, Standard>),
    /// The method of the case's name, which is no edit.
    Name,
}

/// Makes a call and returns the reply of `run` for an edit. Needs room in `replies`.
pub fn reply(
    case: &Case<'_>,
    by: By<'_, '_>,
    value: &mut CompactString,
    replies: &mut Vec<Reply<Standard>>,
) -> Reply<Standard> {
    match by {
        By::Run(edits) => reply_of_run(edits, value, replies),
        By::Edit(edit) => call(edit, value),
        By::Name => named(case, value),
    }
}

/// Runs one edit. Returns a bad position, which no case expects, if there is no room for its reply.
fn reply_of_run(
    edits: &[Edit<'_, Standard>],
    value: &mut CompactString,
    replies: &mut Vec<Reply<Standard>>,
) -> Reply<Standard> {
    if run(value, edits, replies).is_err() {
        return Reply::BadPosition;
    }
    replies.pop().unwrap_or(Reply::BadPosition)
}

/// Makes a call that is no edit. Returns a bad position if there is no call of that name.
fn named(case: &Case<'_>, value: &mut CompactString) -> Reply<Standard> {
    let (first, last) = (case.word(0), case.word(1));
    match case.name {
        "try_reserve" => try_reserve(value, first),
        "write_str" => written(value.write_str(first).is_ok()),
        "write!" => write_both(value, first, last),
        "write" => done(value.write(first)),
        "writeln" => write_line(value, first),
        "add_str" => add_str(value, first),
        "clone" => cloned(value),
        "to_ascii_lowercase" => given(value.to_ascii_lowercase()),
        "to_ascii_uppercase" => given(value.to_ascii_uppercase()),
        "to_compact_string" => shown(value.to_compact_string(value.allocator())),
        "try_to_compact_string" => shown(value.try_to_compact_string(value.allocator())),
        "retain_by" => retain_by(value, flags_of(first).unwrap_or(&[])),
        name => reply_within(name, value, first, last),
    }
}

fn write_both(value: &mut CompactString, first: &str, last: &str) -> Reply<Standard> {
    written(write!(value, "{first}{last}").is_ok())
}

/// Writes a line and removes its line feed. Returns a bad position, which no case expects, if there is none.
fn write_line(value: &mut CompactString, text: &str) -> Reply<Standard> {
    let outcome = value.writeln(text);
    if outcome.is_ok() && value.pop() != Some('\n') {
        return Reply::BadPosition;
    }
    done(outcome)
}

fn cloned(value: &CompactString) -> Reply<Standard> {
    match value.clone() {
        Ok(text) => Reply::Text(text),
        Err(_) => Reply::Refused(ReserveError),
    }
}

fn shown(outcome: Result<CompactString, ToCompactStringError>) -> Reply<Standard> {
    match outcome {
        Ok(text) => Reply::Text(text),
        Err(_) => Reply::Refused(ReserveError),
    }
}

/// Retains by a borrowed closure. Returns a bad position, which no case expects, if it fails after calling the
/// closure.
fn retain_by(value: &mut CompactString, flags: &[bool]) -> Reply<Standard> {
    let mut next = 0;
    let mut keep = |_| {
        let flag = flags.get(next).copied().unwrap_or(true);
        next = usize::min(next, flags.len()) + 1;
        flag
    };
    let outcome = value.retain_by(&mut keep);
    if outcome.is_err() && next > 0 {
        return Reply::BadPosition;
    }
    done(outcome)
}

fn try_reserve(value: &mut CompactString, word: &str) -> Reply<Standard> {
    match number(word) {
        Some(additional) => done(value.try_reserve(additional)),
        None => Reply::BadPosition,
    }
}

fn written(is_done: bool) -> Reply<Standard> {
    if is_done {
        Reply::Done
    } else {
        Reply::Refused(ReserveError)
    }
}

/// Adds to the value, which is returned on failure.
fn add_str(value: &mut CompactString, text: &str) -> Reply<Standard> {
    let empty = CompactString::default(value.allocator());
    match mem::replace(value, empty).add_str(text) {
        Ok(sum) => {
            *value = sum;
            Reply::Done
        }
        Err(Refused { error, value: back }) => {
            *value = back;
            Reply::Refused(error)
        }
    }
}

/// The reply to a call with no other result.
pub fn done(outcome: Result<(), ReserveError>) -> Reply<Standard> {
    match outcome {
        Ok(()) => Reply::Done,
        Err(error) => Reply::Refused(error),
    }
}

/// The reply to a call that returns a text.
pub fn given(outcome: Result<CompactString, ReserveError>) -> Reply<Standard> {
    match outcome {
        Ok(text) => Reply::Text(text),
        Err(error) => Reply::Refused(error),
    }
}
