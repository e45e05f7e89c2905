//! Edits: parsed from a line, and made by their methods.

use crate::calls::{done, given};
use crate::long_texts::number;
use crate::owned_operands::Listed;
use crate::table::{character, first_word, text_of};
use compact_edit::{Edit, Reply};
use compact_str::{CompactString, Standard};
use std::ops::Bound;

/// Parses an edit. Returns `None` if it is no edit, or has another operand.
pub fn edit_of<'a>(call: &'a str, listed: &'a Listed) -> Option<Edit<'a, Standard>> {
    let (name, rest) = first_word(call);
    match name {
        "pop" => Some(Edit::Pop),
        "clear" => Some(Edit::Clear),
        "shrink_to_fit" => Some(Edit::ShrinkToFit),
        "make_ascii_lowercase" => Some(Edit::MakeLower),
        "make_ascii_uppercase" => Some(Edit::MakeUpper),
        "zeroize" => Some(Edit::Zeroize),
        "retain" => retain_of(rest),
        "clone_from" => Some(Edit::CloneFrom(listed.value()?)),
        "push" => Some(Edit::Push(character(rest)?)),
        "push_str" => Some(Edit::PushStr(text_of(rest))),
        _ => edit_at(name, rest),
    }
}

fn retain_of<'a>(word: &str) -> Option<Edit<'a, Standard>> {
    Some(Edit::Retain(flags_of(text_of(word))?))
}

/// Returns whether each of the first characters is kept, from a word of 1s and 0s.
pub fn flags_of(word: &str) -> Option<&'static [bool]> {
    match word {
        "" => Some(&[]),
        "0" => Some(&[false]),
        "1" => Some(&[true]),
        "01" => Some(&[false, true]),
        "10" => Some(&[true, false]),
        _ => None,
    }
}

/// Returns the edit of a name, a position or range, and what is inserted.
fn edit_at<'a>(name: &str, operands: &'a str) -> Option<Edit<'a, Standard>> {
    let (place, operand) = first_word(operands);
    match name {
        "insert" => Some(Edit::Insert(number(place)?, character(operand)?)),
        "insert_str" => Some(Edit::InsertStr(number(place)?, text_of(operand))),
        "replace_range" => {
            let (start, end) = range(place)?;
            Some(Edit::ReplaceRange(start, end, text_of(operand)))
        }
        "drain" => {
            let (start, end) = range(place)?;
            Some(Edit::Drain(start, end))
        }
        _ => edit_of_number(name, number(place)?),
    }
}

/// Returns the edit of a name and a number.
fn edit_of_number<'a>(name: &str, number: usize) -> Option<Edit<'a, Standard>> {
    match name {
        "remove" => Some(Edit::Remove(number)),
        "truncate" => Some(Edit::Truncate(number)),
        "split_off" => Some(Edit::SplitOff(number)),
        "reserve" => Some(Edit::Reserve(number)),
        "shrink_to" => Some(Edit::ShrinkTo(number)),
        "repeat" => Some(Edit::Repeat(number)),
        _ => None,
    }
}

/// Parses two positions with `..` between them, of which each may be missing. `>` before the first excludes it; `=`
/// before the last includes it.
fn range(word: &str) -> Option<(Bound<usize>, Bound<usize>)> {
    let (start, end) = word.split_once("..")?;
    let start = match start.strip_prefix('>') {
        Some(before) => Bound::Excluded(number(before)?),
        None if start.is_empty() => Bound::Unbounded,
        None => Bound::Included(number(start)?),
    };
    let end = match end.strip_prefix('=') {
        Some(last) => Bound::Included(number(last)?),
        None if end.is_empty() => Bound::Unbounded,
        None => Bound::Excluded(number(end)?),
    };
    Some((start, end))
}

/// Makes an edit by its method, and returns the reply of `run`.
pub fn call(edit: &Edit<'_, Standard>, value: &mut CompactString) -> Reply<Standard> {
    match edit {
        Edit::Push(character) => done(value.push(*character)),
        Edit::PushStr(text) => done(value.push_str(text)),
        Edit::Pop => Reply::Char(value.pop()),
        Edit::Retain(flags) => retain(value, flags),
        Edit::Reserve(additional) => done(value.reserve(*additional)),
        Edit::MakeLower => done(value.make_ascii_lowercase()),
        Edit::MakeUpper => done(value.make_ascii_uppercase()),
        Edit::Repeat(count) => given(value.repeat(*count)),
        Edit::CloneFrom(source) => done(value.clone_from(source)),
        Edit::Remove(index) => remove(value, *index),
        Edit::Drain(start, end) => drain(value, *start, *end),
        Edit::Insert(..) | Edit::InsertStr(..) | Edit::SplitOff(..) | Edit::ReplaceRange(..) =>
            call_at(edit, value),
        _ => shorten(edit, value),
    }
}

/// Makes an edit at a position or range, which may be invalid.
fn call_at(edit: &Edit<'_, Standard>, value: &mut CompactString) -> Reply<Standard> {
    match edit {
        Edit::Insert(index, character) if value.is_char_boundary(*index) => {
            done(value.insert(*index, *character))
        }
        Edit::InsertStr(index, text) if value.is_char_boundary(*index) => {
            done(value.insert_str(*index, text))
        }
        Edit::SplitOff(index) if value.is_char_boundary(*index) => given(value.split_off(*index)),
        Edit::ReplaceRange(start, end, text) if value.check_range(*start, *end).is_some() => {
            done(value.replace_range(*start, *end, text))
        }
        _ => Reply::BadPosition,
    }
}

/// Makes an edit that returns nothing and cannot fail.
fn shorten(edit: &Edit<'_, Standard>, value: &mut CompactString) -> Reply<Standard> {
    match edit {
        Edit::Clear => value.clear(),
        Edit::ShrinkTo(capacity) => value.shrink_to(*capacity),
        Edit::ShrinkToFit => value.shrink_to_fit(),
        Edit::Zeroize => value.zeroize(),
        Edit::Truncate(len) if *len >= value.len() || value.is_char_boundary(*len) => {
            value.truncate(*len);
        }
        _ => return Reply::BadPosition,
    }
    Reply::Done
}

fn remove(value: &mut CompactString, index: usize) -> Reply<Standard> {
    if index >= value.len() || !value.is_char_boundary(index) {
        return Reply::BadPosition;
    }
    match value.remove(index) {
        Ok(character) => Reply::Char(Some(character)),
        Err(error) => Reply::Refused(error),
    }
}

/// Returns no text, so that it allocates for the value only.
fn drain(value: &mut CompactString, start: Bound<usize>, end: Bound<usize>) -> Reply<Standard> {
    if value.check_range(start, end).is_none() {
        return Reply::BadPosition;
    }
    match value.drain(start, end) {
        Ok(drained) => {
            drop(drained);
            Reply::Done
        }
        Err(error) => Reply::Refused(error),
    }
}

fn retain(value: &mut CompactString, flags: &[bool]) -> Reply<Standard> {
    let mut next = 0;
    let outcome = value.retain(|_| {
        let flag = flags.get(next).copied().unwrap_or(true);
        next = usize::min(next, flags.len()) + 1;
        flag
    });
    done(outcome)
}
