//! Error types that the library's errors convert to by `?`.
ghost use Rattle.std.specs.Prelude.{◌≡◌, ◌++◌, ◌∷◌, [], OnOk, IfOk, codes, string_bytes};
ghost use Rattle.compact_str.specs.Text.{text_of, utf8};
ghost use Rattle.compact_str.specs.Value.{PlacedText};

use compact_str::{CompactString, ReserveError};
use std::alloc::{AllocError, Global};
use std::{fmt, io};
use thiserror::Error;

/// Appends a name to a list.
pub fn add_name(alloc: Global, names: &mut Vec<CompactString>, name: &str) -> Result<(), AllocError>
    ensures { OnOk result ((v : PlacedText) × (names.new.items ≡ names.old.items ++ v ∷ [])
        × (v.text ≡ text_of name.now)) }
{
    names.push(CompactString::new(alloc, name)?)?;
    Ok(())
}

/// The same, with the library's error.
pub fn add_short_name(
    alloc: Global,
    names: &mut Vec<CompactString>,
    name: &str,
) -> Result<(), ReserveError>
    ensures { OnOk result ((v : PlacedText) × (names.new.items ≡ names.old.items ++ v ∷ [])
        × (v.text ≡ text_of name.now)) }
{
    names.push(CompactString::new(alloc, name)?)?;
    Ok(())
}

/// The same in a program, whose error is `anyhow`'s.
pub fn add_named(alloc: Global, names: &mut Vec<CompactString>, name: &str) -> anyhow::Result<()> {
    names.push(CompactString::new(alloc, name)?)?;
    Ok(())
}

/// The same, with an I/O error.
pub fn add_read(alloc: Global, names: &mut Vec<CompactString>, name: &str) -> io::Result<()> {
    names.push(CompactString::new(alloc, name)?)?;
    Ok(())
}

/// The errors of a list of names.
#[derive(Debug, Drop, Error)]
pub enum NamesError {
    #[error("{0}")]
    Reserve(#[from] ReserveError),
    #[error("no memory for the list")]
    List(#[from(alloc)] AllocError),
}

/// The same, with an error that covers both.
pub fn add_checked(
    alloc: Global,
    names: &mut Vec<CompactString>,
    name: &str,
) -> Result<(), NamesError> {
    names.push(CompactString::new(alloc, name)?)?;
    Ok(())
}

/// Returns a line with a mark at its end as a `String`. Drops the line on failure.
pub fn marked_line(line: CompactString) -> Result<String, ReserveError>
    ensures { IfOk result (λ s. string_bytes s ≡ utf8 line.text ++ codes "!") }
{
    let line = line.add_str("!")?;
    Ok(line.into_string()?)
}

/// Returns the bytes of such a line.
pub fn marked_bytes(line: CompactString) -> Result<Vec<u8>, AllocError> {
    Ok(line.add_str("!")?.into_vec()?)
}

/// The same, with an I/O error.
pub fn marked_output(line: CompactString) -> io::Result<Vec<u8>> {
    Ok(line.add_str("!")?.into_vec()?)
}

/// Writes a line with a mark at its end.
pub fn write_marked<W: fmt::Write>(line: CompactString, out: &mut W) -> fmt::Result {
    let line = line.add_str("!")?;
    out.write_str(&line.into_string()?)
}
