//! The report of failing cases, in a text allocated before memory is taken.

use compact_str::CompactString;
use compact_testing::values::place_of;
use std::alloc::{AllocError, Global};
use std::fmt::Write;

/// The capacity of the text.
const ROOM: usize = 1 << 16;

/// The room for one case, more than any needs. If less is left, a case is counted and not reported.
const MOST: usize = 8192;

/// The number of cases, and the report of those that fail.
#[derive(Drop)]
pub struct Faults {
    text: String,
    /// The length of the text before this case.
    before: usize,
    /// Whether this case has failed; what follows in it is not reported.
    is_told: bool,
    /// The number of allocations granted in this case.
    pub granted: usize,
    pub cases: u32,
    pub count: u32,
}

impl Faults {
    pub fn new(alloc: Global) -> Result<Faults, AllocError> {
        Ok(Faults {
            text: String::with_capacity(alloc, ROOM)?,
            before: 0,
            is_told: false,
            granted: 0,
            cases: 0,
            count: 0,
        })
    }

    /// Returns the report.
    pub fn text(&self) -> &str {
        self.text.as_str()
    }

    /// Begins a case, writing its line in case it fails.
    pub fn begin(&mut self, line: &str) {
        self.before = self.text.len();
        self.is_told = false;
        self.granted = 0;
        self.cases = self.cases.saturating_add(1);
        if self.has_room() {
            let _ = writeln!(self.text, "{line}");
        }
    }

    /// Ends the case, removing its line if it passed.
    pub fn end(&mut self) {
        if self.is_told {
            self.count = self.count.saturating_add(1);
        } else if self.text.is_char_boundary(self.before) {
            self.text.truncate(self.before);
        }
    }

    /// Reports a case that has no line.
    pub fn apart(&mut self, name: &str, holds: bool) {
        self.begin(name);
        self.expect(holds, "it does not hold");
        self.end();
    }

    /// Reports a line that cannot be parsed.
    pub fn unread(&mut self, line: &str) {
        self.begin(line);
        self.expect(false, "the line cannot be read");
        self.end();
    }

    /// Reports what is seen, unless the case holds.
    pub fn expect(&mut self, holds: bool, instead: &str) {
        if !holds && self.is_news() {
            let _ = writeln!(self.text, "    {} granted: {instead}", self.granted);
        }
    }

    /// Reports the value that is seen, unless the case holds.
    pub fn expect_value(&mut self, holds: bool, value: &CompactString) {
        if !holds && self.is_news() {
            let (place, capacity) = (place_of(value), value.capacity());
            let text = value.as_str();
            let _ = writeln!(
                self.text,
                "    {} granted: {place} {capacity} {text}",
                self.granted
            );
        }
    }

    /// Returns `true` on the first failure of this case, if it can be reported.
    fn is_news(&mut self) -> bool {
        let is_news = !self.is_told && self.has_room();
        self.is_told = true;
        is_news
    }

    fn has_room(&self) -> bool {
        self.text.capacity().saturating_sub(self.text.len()) >= MOST / 2
    }
}
