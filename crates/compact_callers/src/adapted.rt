//! Collecting what an adapter of `chars` returns.
#![tactic(auto, using(compact_str::proofs::Collected::adapter_facts))]

ghost use Rattle.std.specs.Prelude.{◌≡◌, map, take, drop, reverse, filter, nat_eq, IfOk, if◌then◌else◌};
ghost use Rattle.std.specs.Char.{is_ascii_digit, to_ascii_uppercase};
ghost use Rattle.compact_str.specs.Text.{text_of};

use compact_str::CompactString;
use std::alloc::{AllocError, Global};

/// Returns the first characters of a line.
pub fn front(alloc: Global, line: &str, count: usize) -> Result<CompactString, AllocError>
    ensures { IfOk result (λ v. v.text ≡ take count (text_of line.now)) }
{
    line.chars().take(count).collect(alloc)
}

/// Returns the first characters of a line in upper case.
pub fn front_in_uppercase(
    alloc: Global,
    line: &str,
    count: usize,
) -> Result<CompactString, AllocError>
    ensures { IfOk result
        (λ v. v.text ≡ map to_ascii_uppercase (take count (text_of line.now))) }
{
    line.chars()
        .take(count)
        .map(|c| c.to_ascii_uppercase())
        .collect(alloc)
}

/// Returns a line without its first characters.
pub fn rest(alloc: Global, line: &str, count: usize) -> Result<CompactString, AllocError>
    ensures { IfOk result (λ v. v.text ≡ drop count (text_of line.now)) }
{
    line.chars().skip(count).collect(alloc)
}

/// Reverses a line.
pub fn reversed(alloc: Global, line: &str) -> Result<CompactString, AllocError>
    ensures { IfOk result (λ v. v.text ≡ reverse (text_of line.now)) }
{
    line.chars().rev().collect(alloc)
}

/// Replaces each space with a dash.
pub fn dashed(alloc: Global, line: &str) -> Result<CompactString, AllocError>
    ensures { IfOk result
        (λ v. v.text ≡ map (λ c. if nat_eq c 32 then 45 else c) (text_of line.now)) }
{
    line.chars()
        .map(
            |c|
                ensures { result ≡ (if nat_eq c 32 then 45 else c) }
            { if c == ' ' { '-' } else { c } },
        )
        .collect(alloc)
}

/// Keeps the digits.
pub fn digits(alloc: Global, line: &str) -> Result<CompactString, AllocError>
    ensures { IfOk result (λ v. v.text ≡ filter is_ascii_digit (text_of line.now)) }
{
    line.chars().filter(|c| c.is_ascii_digit()).collect(alloc)
}
