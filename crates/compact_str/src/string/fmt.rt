//! `Display`, `Debug`, `fmt::Write`, and appending what a value displays (`write!`).
ghost use Rattle.std.specs.Prelude.{Some, ◌≡◌, ◌<◌, ◌≤◌, ◌++◌, length, IsOk, OnOk, OnErr, IfSome};
ghost use Rattle.std.specs.Fmt.{styled_text, debug_str, AppendsText, with_newline};
ghost use Rattle.compact_str.specs.Words.{utf8, text_of, PlacedFor, AllocatesFor, room_to_append, HasRoomFor, infallible_capacity};
ghost use Rattle.compact_str.specs.Output.{PushesOutput, Writes};

use crate::builder::Builder;
use crate::error::ReserveError;
use crate::string::PolicyString;
use compact_repr::Policy;
use std::fmt;
use std::fmt::{Debug, Display, Write};

impl<P: Policy> Display for PolicyString<P> {
    ghost output = { λ v. Some (utf8 v.text) };

    ghost styled_output = { λ v s. Some (styled_text s (utf8 v.text)) };

    /// Writes the text like `str`, padded if a width is given.
    ///
    /// # Examples
    ///
    /// ```
    /// let name = CompactString::new(alloc, "äb")?;
    /// let mut line = CompactString::default(alloc);
    /// write!(line, "{name:*>5}")?;
    /// assert_eq!(rt; line.as_str(), "***äb");
    /// ```
    #[inline]
    fn fmt<W: fmt::Write>(&self, f: &mut fmt::Formatter<W>) -> fmt::Result {
        f.pad(self.as_str())
    }
}

impl<P: Policy> Debug for PolicyString<P> {
    ghost debug_output = { λ v. debug_str (utf8 v.text) };

    /// Writes the text like `str`, quoted and escaped.
    #[inline]
    fn fmt<W: fmt::Write>(&self, f: &mut fmt::Formatter<W>) -> fmt::Result {
        Debug::fmt(self.as_str(), f)
    }
}

impl<P: Policy> fmt::Write for PolicyString<P> {
    ghost write_str_gives = { Writes P.growth };

    /// Appends `text` like `push_str`, for generic writers.
    ///
    /// # Errors
    ///
    /// `fmt::Error` if `push_str` fails, leaving the string unchanged. What generic code wrote before stays; `truncate`
    /// to the old length removes it.
    #[tactic(auto, using(crate::proofs::EditFacts::append_facts))]
    fn write_str(&mut self, text: &str) -> fmt::Result
        ensures ok { OnOk result (Writes P.growth self.old text.now self.new) }

        // As `push_str`.
        ensures text { OnOk result (self.new.text ≡ self.old.text ++ text_of text.now) }
        ensures bytes { OnOk result (utf8 self.new.text ≡ utf8 self.old.text ++ text.now) }
        ensures place { OnOk result
            (PlacedFor P.growth self.old self.new (room_to_append (length text.now))) }
        ensures room { OnOk result (infallible_capacity self.old ≤ infallible_capacity self.new) }
        ensures succeeds { HasRoomFor self.old (length text.now) → IsOk result }
        ensures allocates { OnErr result
            (AllocatesFor self.old (room_to_append (length text.now))) }
        ensures err { OnErr result (self.new ≡ self.old) }
    {
        match self.push_str(text) {
            Ok(()) => Ok(()),
            Err(ReserveError) => Err(fmt::Error),
        }
    }
}

// These shadow the methods of `fmt::Write`, as the kit's `String` does.
impl<P: Policy> PolicyString<P> {
    /// Appends what `value` displays, all of it or nothing, with the capacity of one `push_str`.
    ///
    /// Formats on the stack first, and past 240 bytes in a temporary heap buffer. An empty string with as large a buffer
    /// takes that one over.
    ///
    /// # Errors
    ///
    /// [`ReserveError`] if a buffer cannot be allocated, even if `value` ignores that, or if `value` itself returns an
    /// error; `format_compact!` distinguishes the two. The string is then unchanged.
    ///
    /// # Examples
    ///
    /// ```
    /// let mut line = CompactString::new(alloc, "n° ")?;
    /// line.write(12)?;
    /// assert_eq!(rt; line.as_str(), "n° 12");
    /// ```
    pub fn write<D: Display + Drop>(&mut self, value: D) -> Result<(), ReserveError>
        // Appends what `value` displays, if its type says what that is.
        ensures text { OnOk result
            (IfSome (D.output value) (λ s. self.new.text ≡ self.old.text ++ text_of s)) }
        ensures bytes { OnOk result
            (AppendsText (utf8 self.old.text) (utf8 self.new.text) (D.output value)) }
        ensures place { OnOk result
            (IfSome (D.output value)
            (λ s. PlacedFor P.growth self.old self.new (room_to_append (length s)))) }

        // May fail in formatting too. The string is then unchanged.
        ensures err { OnErr result (self.new ≡ self.old) }
    {
        let mut shown = Builder::for_target(self);
        match shown.write(value) {
            Ok(()) => shown.push_onto(self),
            Err(fmt::Error) => Err(ReserveError),
        }
    }

    /// Appends what `value` displays, like `write`. Called by `write!`.
    ///
    /// # Errors
    ///
    /// [`ReserveError`] as from `write`.
    ///
    /// # Examples
    ///
    /// ```
    /// let mut line = CompactString::default(alloc);
    /// let (name, count) = ("café", 3);
    /// write!(line, "{name}: {count}")?;
    /// assert_eq!(rt; line.as_str(), "café: 3");
    /// ```
    #[inline]
    pub fn write_fmt<D: Display + Drop>(&mut self, value: D) -> Result<(), ReserveError>
        // As `write`.
        ensures { PushesOutput P.growth self.old (D.output value) result self.new }
    {
        self.write(value)
    }

    /// Appends what `value` displays and a newline, like `write`.
    ///
    /// # Errors
    ///
    /// [`ReserveError`] as from `write`.
    ///
    /// # Examples
    ///
    /// ```
    /// let mut line = CompactString::new(alloc, "n° ")?;
    /// line.writeln(12)?;
    /// assert_eq!(rt; line.as_str(), "n° 12\n");
    /// ```
    pub fn writeln<D: Display + Drop>(&mut self, value: D) -> Result<(), ReserveError>
        // As `write`, with a newline after it.
        ensures { PushesOutput P.growth self.old (with_newline (D.output value)) result self.new }
    {
        let mut shown = Builder::for_target(self);
        match shown.writeln(value) {
            Ok(()) => shown.push_onto(self),
            Err(fmt::Error) => Err(ReserveError),
        }
    }
}
