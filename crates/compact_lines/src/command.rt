//! Reading commands.
ghost use Rattle.std.specs.Prelude.{◌≡◌, IfOk};
ghost use Rattle.std.specs.Option.{option_map, option_copied};
ghost use Rattle.std.specs.List.{list_all};
ghost use Rattle.std.specs.Char.{is_ascii_digit};
ghost use Rattle.compact_lines.specs.Commands.{command_itself, edit_itself, command_of, retain_command, bare_command, bare_edit, field_command, field_edit, number_edit, insert_edit, insert_str_edit, replace_edit, drain_edit, are_bits, word_of, rest_of, number_of, start_of, end_of, character_of};

use compact_edit::Edit;
use compact_str::Standard;
use std::alloc::{AllocError, Global};
use std::ops::Bound;

/// The command of a line.
#[derive(Drop)]
pub enum Command<'a> {
    /// Replaces the value by a new one with this text.
    New(&'a str),
    /// Replaces the value by a static one of 30 `a`s.
    Static,
    /// Replaces the value by an empty one with this capacity, in bytes.
    WithCapacity(usize),
    /// Replaces the value by a clone of a new one with this text.
    CloneFrom(&'a str),
    /// Keeps the characters whose flag is `true`, and those without one.
    Retain(Vec<bool>),
    /// Edits the value.
    Edit(Edit<'a, Standard>),
}

/// Parses a line: a word and, after one space, its arguments. Returns `None` if the line is no command.
///
/// # Errors
///
/// `AllocError` if the flags of a `retain` cannot be allocated.
///
/// # Examples
///
/// `pushstr abc` appends `abc`; `foo` is no command.
pub fn parse<'a>(alloc: Global, line: &'a str) -> Result<Option<Command<'a>>, AllocError>
    ensures { IfOk result (λ command. option_map command_itself command ≡ command_of line.now) }
{
    let (word, rest) = first_word(line);
    match rest {
        None => Ok(parse_bare(alloc, word)),
        Some(bits) if word == "retain" => parse_retain(alloc, bits),
        Some(rest) => Ok(parse_fields(word, rest)),
    }
}

/// Parses a line of one word.
fn parse_bare<'a>(alloc: Global, word: &str) -> Option<Command<'a>>
    ensures { option_map command_itself result ≡ bare_command word.now }
{
    match word {
        "new" => Some(Command::New("")),
        "static" => Some(Command::Static),
        "clonefrom" => Some(Command::CloneFrom("")),
        "pushstr" => Some(Command::Edit(Edit::PushStr(""))),
        "retain" => Some(Command::Retain(Vec::new(alloc))),
        _ => parse_bare_edit(word).map(Command::Edit),
    }
}

/// Parses the flags of a `retain`: one for each byte, `true` for 1.
fn parse_retain<'a>(alloc: Global, bits: &str) -> Result<Option<Command<'a>>, AllocError>
    ensures { IfOk result (λ command. option_map command_itself command ≡ retain_command bits.now) }
{
    if !are_bits(bits) {
        return Ok(None);
    }
    let flags = bits.bytes().map(|bit| bit == b'1').collect(alloc)?;
    Ok(Some(Command::Retain(flags)))
}

/// Parses an edit without arguments.
fn parse_bare_edit<'a>(word: &str) -> Option<Edit<'a, Standard>>
    ensures { option_map edit_itself result ≡ bare_edit word.now }
{
    match word {
        "pop" => Some(Edit::Pop),
        "clear" => Some(Edit::Clear),
        "shrinktofit" => Some(Edit::ShrinkToFit),
        "lower" => Some(Edit::MakeLower),
        "upper" => Some(Edit::MakeUpper),
        "zeroize" => Some(Edit::Zeroize),
        _ => None,
    }
}

/// Parses a word and the text after its space.
fn parse_fields<'a>(word: &str, rest: &'a str) -> Option<Command<'a>>
    ensures { option_map command_itself result ≡ field_command word.now rest.now }
{
    match word {
        "new" => Some(Command::New(rest)),
        "cap" => Some(Command::WithCapacity(number(rest)?)),
        "clonefrom" => Some(Command::CloneFrom(rest)),
        _ => parse_field_edit(word, rest).map(Command::Edit),
    }
}

/// Parses an edit from a word and the text after its space.
fn parse_field_edit<'a>(word: &str, rest: &'a str) -> Option<Edit<'a, Standard>>
    ensures { option_map edit_itself result ≡ field_edit word.now rest.now }
{
    match word {
        "push" => Some(Edit::Push(character(rest)?)),
        "pushstr" => Some(Edit::PushStr(rest)),
        "insert" => parse_insert(rest),
        "insertstr" => parse_insert_str(rest),
        "replace" => parse_replace(rest),
        "drain" => parse_drain(rest),
        _ => parse_number_edit(word, number(rest)?),
    }
}

/// Parses an edit from a word and a number.
fn parse_number_edit<'a>(word: &str, number: usize) -> Option<Edit<'a, Standard>>
    ensures { option_map edit_itself result ≡ number_edit word.now number }
{
    match word {
        "remove" => Some(Edit::Remove(number)),
        "truncate" => Some(Edit::Truncate(number)),
        "splitoff" => Some(Edit::SplitOff(number)),
        "reserve" => Some(Edit::Reserve(number)),
        "shrinkto" => Some(Edit::ShrinkTo(number)),
        "repeat" => Some(Edit::Repeat(number)),
        _ => None,
    }
}

/// Parses a position and a character.
fn parse_insert<'a>(rest: &str) -> Option<Edit<'a, Standard>>
    ensures { option_map edit_itself result ≡ insert_edit rest.now }
{
    let (index, text) = first_word(rest);
    Some(Edit::Insert(number(index)?, character(text?)?))
}

/// Parses a position and a text, empty if missing.
fn parse_insert_str(rest: &str) -> Option<Edit<'_, Standard>>
    ensures { option_map edit_itself result ≡ insert_str_edit rest.now }
{
    let (index, text) = first_word(rest);
    Some(Edit::InsertStr(number(index)?, text.unwrap_or("")))
}

/// Parses a range and its replacement, empty if missing.
fn parse_replace(rest: &str) -> Option<Edit<'_, Standard>>
    ensures { option_map edit_itself result ≡ replace_edit rest.now }
{
    let (start, ends) = first_word(rest);
    let (end, text) = first_word(ends?);
    Some(Edit::ReplaceRange(range_start(start)?, range_end(end)?, text.unwrap_or("")))
}

/// Parses the two ends of a range.
fn parse_drain<'a>(rest: &str) -> Option<Edit<'a, Standard>>
    ensures { option_map edit_itself result ≡ drain_edit rest.now }
{
    let (start, end) = first_word(rest);
    let end = end?;
    Some(Edit::Drain(range_start(start)?, range_end(end)?))
}

/// Returns `true` if `text` has only 0 and 1.
fn are_bits(text: &str) -> bool
    ensures { result ≡ are_bits text.now }
{
    text.bytes().all(|byte| byte == b'0' || byte == b'1')
}

/// Splits at the first space.
fn first_word(text: &str) -> (&str, Option<&str>)
    ensures word { result.0.now ≡ word_of text.now }
    ensures rest { option_copied result.1 ≡ rest_of text.now }
{
    match text.split_once(' ') {
        Some((word, rest)) => (word, Some(rest)),
        None => (text, None),
    }
}

/// Returns `true` if `text` has only ASCII digits.
fn are_digits(text: &str) -> bool
    ensures { result ≡ list_all is_ascii_digit text.now }
{
    text.bytes().all(|byte| byte.is_ascii_digit())
}

/// Parses a number: one or more ASCII digits whose value fits a `usize`.
fn number(word: &str) -> Option<usize>
    ensures { result ≡ number_of word.now }
{
    // `parse` alone accepts a sign.
    if are_digits(word) {
        word.parse().ok()
    } else {
        None
    }
}

/// Parses the start of a range: a number, or `-` for the start of the text.
fn range_start(word: &str) -> Option<Bound<usize>>
    ensures { result ≡ start_of word.now }
{
    if word == "-" {
        return Some(Bound::Unbounded);
    }
    number(word).map(Bound::Included)
}

/// Parses the exclusive end of a range: a number, or `-` for the end of the text.
fn range_end(word: &str) -> Option<Bound<usize>>
    ensures { result ≡ end_of word.now }
{
    if word == "-" {
        return Some(Bound::Unbounded);
    }
    number(word).map(Bound::Excluded)
}

/// Parses a text of one character.
fn character(text: &str) -> Option<char>
    ensures { result ≡ character_of text.now }
{
    text.parse().ok()
}
