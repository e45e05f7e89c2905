//! The type of an edit, and that of its reply.

use compact_str::{Policy, PolicyString, ReserveError};
use std::ops::Bound;

/// A change of a value. Positions and lengths are in bytes.
///
/// # Examples
///
/// ```
/// let mut value = CompactString::new(alloc, "naïve")?;
/// let mut replies = Vec::new(alloc);
/// let edits = [Edit::Remove(2), Edit::InsertStr(2, "i")];
/// run(&mut value, &edits, &mut replies)?;
/// assert_eq!(rt; value.as_str(), "naive");
/// ```
#[derive(Drop)]
pub enum Edit<'a, P: Policy> {
    /// Appends a character.
    Push(char),
    /// Appends a text.
    PushStr(&'a str),
    /// Removes the last character.
    Pop,
    /// Inserts a character at a position.
    Insert(usize, char),
    /// Inserts a text at a position.
    InsertStr(usize, &'a str),
    /// Removes the character that begins at a position.
    Remove(usize),
    /// Shortens the text to a length.
    Truncate(usize),
    /// Removes all characters.
    Clear,
    /// Splits the text at a position: keeps the part before it, and returns the rest.
    SplitOff(usize),
    /// Replaces a range with a text.
    ReplaceRange(Bound<usize>, Bound<usize>, &'a str),
    /// Removes a range, and returns its text.
    Drain(Bound<usize>, Bound<usize>),
    /// Keeps the characters whose flag is `true`, the first flag being that of the first character. A character with no
    /// flag is kept.
    Retain(&'a [bool]),
    /// Reserves room for that many more bytes.
    Reserve(usize),
    /// Shrinks the capacity to at least the length and a lower limit.
    ShrinkTo(usize),
    /// Shrinks the capacity to the length.
    ShrinkToFit,
    /// Makes A to Z lowercase.
    MakeLower,
    /// Makes a to z uppercase.
    MakeUpper,
    /// Removes all characters, and writes zeros over every byte that the value owns.
    Zeroize,
    /// Returns the text, repeated that often.
    Repeat(usize),
    /// Makes the value a clone of another.
    CloneFrom(&'a PolicyString<P>),
}

/// The reply to an edit.
///
/// # Examples
///
/// ```
/// let mut value = CompactString::new(alloc, "clé=été")?;
/// let mut replies = Vec::new(alloc);
/// run(&mut value, &[Edit::SplitOff(5)], &mut replies)?;
/// assert!(rt; matches!(replies.as_slice(), [Reply::Text(rest)] if rest.as_str() == "été"));
/// assert_eq!(rt; value.as_str(), "clé=");
/// ```
#[derive(Drop)]
pub enum Reply<P: Policy> {
    /// Done.
    Done,
    /// Done, with the character that was removed; `None` if the text was empty.
    Char(Option<char>),
    /// Done, with the text that the edit returns.
    Text(PolicyString<P>),
    /// A position is not a character boundary, or out of range. The value is unchanged.
    BadPosition,
    /// Allocation failed. The value is unchanged.
    Refused(ReserveError),
}
