//! The error of a line that is no visit.

use compact_str::{CompactString, ReserveError};
use serde::Serialize;
use std::alloc::Global;

/// Why the input is no visit, and at which line and column, counted from 1.
#[derive(Drop, Serialize)]
pub struct Fault {
    pub line: usize,
    pub column: usize,
    pub error: CompactString,
}

impl Fault {
    /// Creates a fault from an error of the JSON reader. The reader saw a single line, so the line in its message is
    /// dropped.
    pub fn new(
        alloc: Global,
        line: usize,
        error: &serde_json::Error,
    ) -> Result<Self, ReserveError> {
        let mut said = CompactString::const_new(alloc, "");
        write!(said, "{error}")?;
        if let Some(end) = said.find(" at line ") {
            said.truncate(end);
        }
        Ok(Self {
            line,
            column: error.column(),
            error: said,
        })
    }
}
