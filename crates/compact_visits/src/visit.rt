//! Visits, as lines of the input.

use compact_str::CompactString;
use serde::Deserialize;

/// A page, the address that the visitor came from, if any, and some tags.
#[derive(Debug, Drop, PartialEq, Deserialize)]
pub struct Visit {
    pub page: CompactString,
    pub referrer: Option<CompactString>,
    #[serde(default)]
    pub tags: Vec<CompactString>,
}

/// Returns the host of an address: `example.org` for `https://example.org/a`, and the empty text if there is no `://`.
pub fn host_of(address: &str) -> &str {
    let Some((_, rest)) = address.split_once("://") else {
        return "";
    };
    match rest.split_once('/') {
        Some((host, _)) => host,
        None => rest,
    }
}
