//! The string type, which `bench/programs.py` replaces.

pub use compact_str::{CompactString as Text, ReserveError as Refused};
