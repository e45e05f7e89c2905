//! Parts of a text as ranges.
ghost use Rattle.std.specs.Prelude.{◌≡◌, ◌≤◌, ◌-◌, ◌++◌, [], IfSome, OnOk, OnErr, codes, take, drop};
ghost use Rattle.compact_str.specs.Text.{size, text_of, utf8};
ghost use Rattle.compact_str.specs.Cut.{IsBoundary, replaced_text, substring};

use compact_str::{CompactString, ReserveError};

/// Removes a byte order mark: the first three bytes.
pub fn drop_mark(line: &mut CompactString) -> Result<(), ReserveError>
    requires { IsBoundary line.old.text 3 }
    ensures text { OnOk result (line.new.text ≡ replaced_text line.old.text 0 3 []) }
    ensures unchanged { OnErr result (line.new ≡ line.old) }
{
    line.drain_within(..3)?;
    Ok(())
}

/// Overwrites a part of a line with `"xy"`.
#[tactic(auto, using(compact_str::proofs::ForCallers::caller_facts))]
pub fn cover(line: &mut CompactString, start: usize, end: usize) -> Result<(), ReserveError>
    requires order { start ≤ end }
    requires first { IsBoundary line.old.text start }
    requires last { IsBoundary line.old.text end }
    ensures text { OnOk result
        (line.new.text ≡ replaced_text line.old.text start end (codes "xy")) }
    ensures unchanged { OnErr result (line.new ≡ line.old) }
{
    line.replace_within(start..end, "xy")
}

/// Appends the part of a line from `start` once more.
#[tactic(auto, using(compact_str::proofs::RangeFacts::range_facts))]
pub fn repeat_from(line: &mut CompactString, start: usize) -> Result<(), ReserveError>
    requires { IsBoundary line.old.text start }
    ensures text { OnOk result (line.new.text
        ≡ line.old.text ++ substring line.old.text start (size line.old.text)) }
    ensures unchanged { OnErr result (line.new ≡ line.old) }
{
    line.extend_from_within(start..)
}

/// Returns the part between two byte positions, if both are boundaries.
pub fn part_between(line: &CompactString, first: usize, last: usize) -> Option<&str>
    ensures { IfSome result (λ s. text_of s.now ≡ substring line.now.text first last) }
{
    if first <= last && line.is_char_boundary(first) && line.is_char_boundary(last) {
        Some(line.range_within(first..last))
    } else {
        None
    }
}

/// The same by index, with the contract in bytes.
pub fn bytes_between(line: &CompactString, first: usize, last: usize) -> Option<&str>
    ensures { IfSome result (λ s. s.now ≡ take (last - first) (drop first (utf8 line.now.text))) }
{
    if first <= last && line.is_char_boundary(first) && line.is_char_boundary(last) {
        Some(&line[first..last])
    } else {
        None
    }
}
