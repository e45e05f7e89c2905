//! Contracts stated in bytes, as those of `String` are.
ghost use Rattle.std.specs.Prelude.{◌≡◌, ◌≤◌, ℕ, ◌++◌, codes, decimal, OnOk, IfOk, OnErr, take, drop, flat_map};
ghost use Rattle.std.specs.Char.{encode_utf8};
ghost use Rattle.std.specs.Str.{str_to_ascii_lowercase, str_to_ascii_uppercase};
ghost use Rattle.std.specs.Str.Replace.{ReplacesMatches};
ghost use Rattle.std.specs.Cow.{cow_str_bytes};
ghost use Rattle.compact_str.specs.Text.{text_of, utf8};
ghost use Rattle.compact_str.specs.Cut.{IsBoundary};
ghost use Rattle.compact_str.specs.Collect.{join};

use compact_ext::{ToCompactString, ToCompactStringError, format_compact};
use compact_str::{CompactString, CompactStringExt, ReserveError};
use std::alloc::{AllocError, Global};
use std::borrow::CowStr;
use std::str::pattern::Pattern;

/// Builds a greeting.
pub fn greeting(alloc: Global, name: &str) -> Result<CompactString, ReserveError>
    ensures { IfOk result (λ line. utf8 line.text ≡ codes "Hello, " ++ name.now ++ codes "!") }
{
    let mut line = CompactString::new(alloc, "Hello, ")?;
    line.push_str(name)?;
    line.push('!')?;
    Ok(line)
}

/// Appends a character and a text.
pub fn append_both(line: &mut CompactString, mark: char, text: &str) -> Result<(), ReserveError>
    ensures { OnOk result
        (utf8 line.new.text ≡ utf8 line.old.text ++ encode_utf8 mark ++ text.now) }
{
    line.push(mark)?;
    line.push_str(text)
}

/// Inserts a mark at a cursor.
pub fn mark_at(line: &mut CompactString, cursor: usize, mark: &str) -> Result<(), ReserveError>
    requires { IsBoundary line.old.text cursor }
    ensures bytes { OnOk result (utf8 line.new.text
        ≡ take cursor (utf8 line.old.text) ++ mark.now ++ drop cursor (utf8 line.old.text)) }
    ensures unchanged { OnErr result (line.new ≡ line.old) }
{
    line.insert_str(cursor, mark)
}

/// Copies a line and appends a mark.
pub fn marked(line: &CompactString) -> Result<CompactString, ReserveError>
    ensures { IfOk result (λ v. utf8 v.text ≡ utf8 line.now.text ++ codes "!") }
{
    let mut copy = line.clone()?;
    copy.push_str("!")?;
    Ok(copy)
}

/// Makes a heading from a text that may be borrowed.
pub fn heading(alloc: Global, text: CowStr<'_>) -> Result<CompactString, ReserveError>
    ensures { IfOk result (λ v. utf8 v.text ≡ codes "# " ++ cow_str_bytes text.entry) }
{
    let text = CompactString::from_cow(alloc, text)?;
    let mut heading = CompactString::const_new(alloc, "# ");
    heading.push_str(text.as_str())?;
    Ok(heading)
}

/// Shortens a line to its first `len` bytes, a boundary.
pub fn shorten(line: &mut CompactString, len: usize)
    requires { IsBoundary line.old.text len }
    ensures { utf8 line.new.text ≡ take len (utf8 line.old.text) }
{
    line.truncate(len);
}

/// Replaces the bytes from one boundary to another.
#[tactic(auto, using(compact_str::proofs::ForCallers::byte_facts))]
pub fn overwrite(
    line: &mut CompactString,
    start: usize,
    end: usize,
    text: &str,
) -> Result<(), ReserveError>
    requires order { start ≤ end }
    requires first { IsBoundary line.old.text start }
    requires last { IsBoundary line.old.text end }
    ensures { OnOk result (utf8 line.new.text
        ≡ take start (utf8 line.old.text) ++ text.now ++ drop end (utf8 line.old.text)) }
{
    line.replace_within(start..end, text)
}

/// Replaces each comma by a semicolon.
pub fn with_semicolons(alloc: Global, text: &str) -> Result<CompactString, AllocError>
    ensures { IfOk result (λ v. (n : ℕ) × ReplacesMatches ⟦<char as Pattern>⟧.find_in_gives
        ⟦<char as Pattern>⟧.same_pattern (codes ";") n 44 text.now (utf8 v.text)) }
{
    Ok(CompactString::from(text.replace(alloc, ',', ";")?))
}

/// Formats a port.
#[tactic(auto, using(compact_str::proofs::ForCallers::byte_facts))]
pub fn port_text(alloc: Global, port: u16) -> Result<CompactString, ToCompactStringError>
    ensures { IfOk result (λ v. utf8 v.text ≡ decimal port) }
{
    port.to_compact_string(alloc)
}

/// Formats a port after a colon.
#[tactic(auto, using(compact_str::proofs::ForCallers::byte_facts))]
pub fn port_part(alloc: Global, port: u16) -> Result<CompactString, ToCompactStringError>
    ensures { IfOk result (λ v. utf8 v.text ≡ codes ":" ++ decimal port) }
{
    let mut part = CompactString::const_new(alloc, ":");
    let digits = port.to_compact_string(alloc)?;
    part.push_str(digits.as_str())?;
    Ok(part)
}

/// Appends a field, as `name=number`.
#[tactic(auto, using(compact_str::proofs::ForCallers::caller_facts, compact_str::proofs::ForCallers::byte_facts))]
pub fn append_number_field(
    alloc: Global,
    line: &mut CompactString,
    name: &str,
    number: u32,
) -> Result<(), ToCompactStringError>
    ensures { OnOk result
        (utf8 line.new.text ≡ utf8 line.old.text ++ (name.now ++ (codes "=" ++ decimal number))) }
{
    line.push_str(name)?;
    line.push('=')?;
    line.push_str(number.to_compact_string(alloc)?.as_str())?;
    Ok(())
}

/// Converts a line to lower case.
#[tactic(auto, using(compact_str::proofs::ForCallers::byte_facts))]
pub fn lower(line: &mut CompactString) -> Result<(), ReserveError>
    ensures { OnOk result (utf8 line.new.text ≡ str_to_ascii_lowercase (utf8 line.old.text)) }
{
    line.make_ascii_lowercase()
}

/// Returns a copy of a line in upper case.
#[tactic(auto, using(compact_str::proofs::ForCallers::byte_facts))]
pub fn upper_copy(line: &CompactString) -> Result<CompactString, ReserveError>
    ensures { IfOk result (λ v. utf8 v.text ≡ str_to_ascii_uppercase (utf8 line.now.text)) }
{
    line.to_ascii_uppercase()
}

/// Joins names in one line.
#[tactic(auto, using(compact_str::proofs::ForCallers::caller_facts))]
pub fn names_in_line(
    alloc: Global,
    names: &[CompactString],
    separator: &str,
) -> Result<CompactString, ReserveError>
    ensures { IfOk result
        (λ v. utf8 v.text ≡ join separator.now (λ name. utf8 name.text) names.now) }
{
    names.iter().join_compact(alloc, separator)
}

/// Joins the parts of a path. `text_of` decodes each part: that the parts of a slice are valid UTF-8 is not known there.
#[tactic(auto, using(compact_str::proofs::ForCallers::caller_facts))]
pub fn path_of_parts(alloc: Global, parts: &[&str]) -> Result<CompactString, ReserveError>
    ensures { IfOk result
        (λ v. utf8 v.text ≡ join (codes "/") (λ part. utf8 (text_of part.now)) parts.now) }
{
    parts.iter().copied().join_compact(alloc, "/")
}

/// Concatenates names.
#[tactic(auto, using(compact_str::proofs::ForCallers::caller_facts))]
pub fn concatenated_names(
    alloc: Global,
    names: &[CompactString],
) -> Result<CompactString, ReserveError>
    ensures { IfOk result (λ v. utf8 v.text ≡ flat_map (λ name. utf8 name.text) names.now) }
{
    names.iter().concat_compact(alloc)
}

/// Formats an entry of a report.
pub fn entry(alloc: Global, name: &str, count: u64) -> Result<CompactString, ToCompactStringError>
    ensures { IfOk result (λ v. utf8 v.text ≡ name.now ++ (codes ": " ++ decimal count)) }
{
    format_compact!(in alloc; "{name}: {count}")
}
