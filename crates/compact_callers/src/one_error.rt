//! Functions that format, append and intern under one error type, by `?` alone.
#![tactic(auto, using(compact_str::proofs::ForCallers::caller_facts, compact_ext::proofs::ForCallers::shown_facts))]

ghost use Rattle.std.specs.Prelude.{◌≡◌, ◌++◌, ◌∷◌, [], ℕ, Some, OnOk, codes, decimal, slice_get};
ghost use Rattle.compact_str.specs.Text.{text_of};

use compact_edit::{InternError, Interner};
use compact_ext::{ToCompactString, ToCompactStringError, format_compact};
use compact_str::{CompactString, ReserveError};
use std::alloc::Global;
use std::{fmt, io};
use thiserror::Error;

/// Appends a field of any type.
pub fn append_field<T: ToCompactString>(
    alloc: Global,
    line: &mut CompactString,
    name: &str,
    value: &T,
) -> fmt::Result
    ensures { OnOk result (line.new.text
        ≡ line.old.text ++ text_of name.now ++ codes "=" ++ T.shown_text value.now) }
{
    line.push_str(name)?;
    line.push('=')?;
    line.push_str(value.to_compact_string(alloc)?.as_str())?;
    Ok(())
}

/// Appends a row and a column, with an I/O error.
pub fn append_cell(
    alloc: Global,
    line: &mut CompactString,
    column: char,
    row: u32,
) -> io::Result<()>
    ensures { OnOk result (line.new.text ≡ line.old.text ++ column ∷ decimal row) }
{
    line.push_str(format_compact!(in alloc; "{column}{row}")?.as_str())?;
    Ok(())
}

/// The errors of a label.
#[derive(Debug, Drop, Error)]
pub enum LabelError {
    #[error("{0}")]
    Reserve(#[from] ReserveError),
    #[error("{0}")]
    Format(#[from] ToCompactStringError),
}

/// Appends a number in brackets, with an error of its own.
pub fn append_number(alloc: Global, line: &mut CompactString, number: u64) -> Result<(), LabelError>
    ensures { OnOk result (line.new.text
        ≡ line.old.text ++ codes "[" ++ decimal number ++ codes "]") }
{
    line.push('[')?;
    line.push_str(number.to_compact_string(alloc)?.as_str())?;
    line.push(']')?;
    Ok(())
}

/// Interns a name and appends its number.
pub fn add_number(
    names: &mut Interner,
    numbers: &mut Vec<u32>,
    name: &str,
) -> Result<(), InternError>
    ensures { OnOk result ((n : ℕ) × (numbers.new.items ≡ numbers.old.items ++ n ∷ [])
        × (slice_get names.new n ≡ Some (text_of name.now))) }
{
    numbers.push(names.intern(name)?)?;
    Ok(())
}

/// The same for a copy of the name, which a failed push drops.
pub fn add_name(
    alloc: Global,
    names: &mut Interner,
    copies: &mut Vec<CompactString>,
    name: &str,
) -> Result<u32, InternError> {
    let number = names.intern(name)?;
    copies.push(CompactString::new(alloc, name)?)?;
    Ok(number)
}
