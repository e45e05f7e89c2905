//! The sources of visits.

use crate::visit::{Visit, host_of};
use anyhow::Result;
use compact_str::CompactString;
use serde::Serialize;
use std::alloc::Global;
use std::collections::HashMap;

/// A line of the output: a host that visitors came from, or `None` if unknown.
#[derive(Drop, Serialize)]
pub struct Source {
    pub host: Option<CompactString>,
    pub visits: u64,
    /// The pages and the tags, each once, by first occurrence.
    pub pages: Vec<CompactString>,
    pub tags: Vec<CompactString>,
}

impl Source {
    fn new(alloc: Global, host: &str) -> Result<Self> {
        let host = if host.is_empty() {
            None
        } else {
            Some(CompactString::new(alloc, host)?)
        };
        Ok(Self {
            host,
            visits: 0,
            pages: Vec::new(alloc),
            tags: Vec::new(alloc),
        })
    }

    fn add(&mut self, page: CompactString, tags: Vec<CompactString>) -> Result<()> {
        self.visits = self.visits.saturating_add(1);
        add_once(&mut self.pages, page)?;
        for tag in tags {
            add_once(&mut self.tags, tag)?;
        }
        Ok(())
    }
}

/// Appends a text, unless it is already there.
fn add_once(texts: &mut Vec<CompactString>, text: CompactString) -> Result<()> {
    if !texts.contains(&text) {
        texts.push(text)?;
    }
    Ok(())
}

/// The sources by host.
#[derive(Drop)]
pub struct Sources {
    by_host: HashMap<CompactString, Source>,
}

impl Sources {
    pub fn new(alloc: Global) -> Self {
        Self {
            by_host: HashMap::new(alloc),
        }
    }

    /// Counts a visit. Looks the host up as a `&str`, so that only a new host makes a value.
    pub fn count(&mut self, alloc: Global, visit: Visit) -> Result<()> {
        let Visit {
            page,
            referrer,
            tags,
        } = visit;
        let host = host_of(referrer.as_deref().unwrap_or(""));
        if !self.by_host.contains_key(host) {
            self.insert(alloc, host)?;
        }
        match self.by_host.get_mut(host) {
            Some(source) => source.add(page, tags),
            None => Ok(()),
        }
    }

    fn insert(&mut self, alloc: Global, host: &str) -> Result<()> {
        let key = CompactString::new(alloc, host)?;
        self.by_host.insert(key, Source::new(alloc, host)?)?;
        Ok(())
    }

    /// Returns the sources by visits, most first, then by host.
    pub fn into_sorted(self, alloc: Global) -> Result<Vec<Source>> {
        let mut sources: Vec<Source> = self.by_host.into_values().collect(alloc)?;
        sources.sort_by(|a, b| b.visits.cmp(&a.visits).then(a.host.cmp(&b.host)))?;
        Ok(sources)
    }
}
