//! Iterators of texts, passed to calls whose signature names a `CompactString`.
//!
//! `Spelled`, `Lines`, `append_all` and `gather` play a library that takes any iterator. The functions below them call
//! it with a slice's iterator, as a user would first.
ghost use Rattle.std.specs.Prelude.{◌≡◌, ℕ, List, ◌++◌, ◌+◌, flat_map, fold, IfOk, OnOk, codes};
ghost use Rattle.std.specs.Iterator.{IsFinite};
ghost use Rattle.std.specs.Iterator.Runs.{WholeRun};
ghost use Rattle.compact_str.specs.Text.{text_of, size};

use compact_str::{CompactString, ReserveError};
use std::alloc::Global;

/// Items that have a text.
pub trait Spelled: Drop {
    // The text as a list of characters.
    ghost text: { Self → List ℕ };

    /// Returns the text.
    fn spelled(&self) -> &str
        ensures { text_of result.now ≡ text self.now };
}

impl Spelled for &str {
    ghost text = { λ part. text_of part.now };

    fn spelled(&self) -> &str {
        *self
    }
}

impl Spelled for &&str {
    ghost text = { λ part. text_of part.now.now };

    fn spelled(&self) -> &str {
        **self
    }
}

impl Spelled for &CompactString {
    ghost text = { λ part. part.now.text };

    fn spelled(&self) -> &str {
        self.as_str()
    }
}

/// Appends each of `parts`.
fn append_all<T: Spelled, I: Iterator<Item = T> + Drop>(
    line: &mut CompactString,
    parts: I,
) -> Result<(), ReserveError>
    requires can { I.can_next parts }
    requires ends { IsFinite (I.remaining parts) }
    ensures { OnOk result
        (WholeRun I.next_gives parts
        (λ run. line.new.text ≡ line.old.text ++ flat_map T.text run.items)) }
{
    for part in parts {
        line.push_str(part.spelled())?;
    }
    Ok(())
}

/// Concatenates `parts`.
fn gather<T: Spelled, I: Iterator<Item = T> + Drop>(
    alloc: Global,
    parts: I,
) -> Result<CompactString, ReserveError>
    requires can { I.can_next parts }
    requires ends { IsFinite (I.remaining parts) }
    ensures text { IfOk result
        (λ v. WholeRun I.next_gives parts (λ run. v.text ≡ flat_map T.text run.items)) }
    ensures size { IfOk result
        (λ v. WholeRun I.next_gives parts
        (λ run. size v.text ≡ fold (λ n part. n + size (T.text part)) 0 run.items)) }
{
    let mut line = CompactString::default(alloc);
    append_all(&mut line, parts)?;
    Ok(line)
}

/// Conversions from an iterator of texts.
pub trait Lines: Iterator {
    /// Concatenates the items, with `end` after each.
    final fn join_lines(self, alloc: Global, end: &str) -> Result<CompactString, ReserveError>
    where
        Self: Sized + Drop,
        Self::Item: Spelled,
        requires can { Self.can_next self }
        requires ends { IsFinite (Self.remaining self) }
        ensures { IfOk result
            (λ v. WholeRun Self.next_gives self
            (λ run. v.text ≡ flat_map
            (λ part. Self.Item.text part ++ text_of end.now) run.items)) }
    {
        let mut lines = CompactString::default(alloc);
        for part in self {
            lines.push_str(part.spelled())?;
            lines.push_str(end)?;
        }
        Ok(lines)
    }
}

impl<I: Iterator> Lines for I {}

/// Joins borrowed parts into a path, by copy.
pub fn path(alloc: Global, parts: &[&str]) -> Result<CompactString, ReserveError>
    ensures { IfOk result
        (λ v. v.text ≡ flat_map (λ part. text_of part.now ++ text_of (codes "/")) parts.now) }
{
    parts.iter().copied().join_lines(alloc, "/")
}

/// Concatenates parts, by reference.
pub fn whole(alloc: Global, parts: &[&str]) -> Result<CompactString, ReserveError>
    ensures { IfOk result (λ v. v.text ≡ flat_map (λ part. text_of part.now) parts.now) }
{
    gather(alloc, parts.iter())
}

/// Appends the fields of a record.
pub fn append_fields(line: &mut CompactString, fields: &[&str]) -> Result<(), ReserveError>
    ensures { OnOk result
        (line.new.text ≡ line.old.text ++ flat_map (λ field. text_of field.now) fields.now) }
{
    append_all(line, fields.iter().copied())
}

/// Concatenates names.
pub fn names_of(alloc: Global, names: &[CompactString]) -> Result<CompactString, ReserveError>
    ensures { IfOk result (λ v. size v.text ≡ fold (λ n name. n + size name.text) 0 names.now) }
{
    gather(alloc, names.iter().map(|name| name.as_str()))
}

/// Concatenates names, by reference.
pub fn names_by_reference(
    alloc: Global,
    names: &[CompactString],
) -> Result<CompactString, ReserveError>
    ensures { IfOk result (λ v. v.text ≡ flat_map (λ name. name.text) names.now) }
{
    gather(alloc, names.iter())
}

/// Returns the names longer than `least` bytes, in order.
pub fn long_names(
    alloc: Global,
    names: &[CompactString],
    least: usize,
) -> Result<CompactString, ReserveError> {
    gather(alloc, names.iter().filter(|name| name.len() > least))
}
