//! Counts and totals over a field of records, in a map by text.
#![tactic(auto, using(compact_str::proofs::TextKeys::map_facts))]

ghost use Rattle.std.specs.Prelude.{◌≡◌, ◌<◌, ◌^◌, ℕ, List, IfOk, bytes_eq, count_by, sum_by, unwrap_or, if◌then◌else◌};
ghost use Rattle.compact_str.specs.Text.{utf8};
ghost use Rattle.compact_str.specs.SortedKeys as sorted;

use compact_str::{CompactString, ReserveError};
use std::alloc::Global;
use std::collections::BTreeMap;

/// A visit to a host.
#[derive(Drop)]
pub struct Visit {
    pub host: CompactString,
    pub seconds: u32,
}

/// Returns how many of the visits each host had.
pub fn visits_by_host(
    alloc: Global,
    visits: &[Visit],
) -> Result<BTreeMap<CompactString, u64>, ReserveError>
    ensures { IfOk result (λ counts. (host : List ℕ) →
        unwrap_or (sorted.get_by_text counts host) 0
        ≡ count_by (λ visit. bytes_eq host (utf8 visit.host.text)) visits.now) }
{
    let mut counts = BTreeMap::new(alloc);
    for visit in visits {
        *counts.entry(visit.host.clone()?)?.or_insert(0) += 1;
    }
    Ok(counts)
}

/// Returns how many seconds the visits of each host took, all of which add up within 64 bits.
pub fn seconds_by_host(
    alloc: Global,
    visits: &[Visit],
) -> Result<BTreeMap<CompactString, u64>, ReserveError>
    requires { sum_by (λ visit. visit.seconds) visits.now < 2 ^ 64 }
    ensures { IfOk result (λ totals. (host : List ℕ) →
        unwrap_or (sorted.get_by_text totals host) 0
        ≡ sum_by (λ visit. if bytes_eq host (utf8 visit.host.text) then visit.seconds else 0)
        visits.now) }
{
    let mut totals = BTreeMap::new(alloc);
    for visit in visits {
        *totals.entry(visit.host.clone()?)?.or_insert(0) += visit.seconds as u64;
    }
    Ok(totals)
}
