//! Removals and cuts, with contracts in bytes.
#![tactic(auto, using(compact_str::proofs::ForCallers::caller_facts, compact_str::proofs::ForCallers::byte_facts))]

ghost use Rattle.std.specs.Prelude.{◌≡◌, ◌+◌, ◌<◌, ◌≤◌, length, take, drop, IfOk, OnOk};
ghost use Rattle.std.specs.Char.{len_utf8};
ghost use Rattle.std.specs.List.{remove_range};
ghost use Rattle.std.specs.Str.{IsCharBoundary, IsUtf8};
ghost use Rattle.compact_str.specs.Text.{utf8};
ghost use Rattle.compact_str.specs.Cut.{IsBoundary};

use compact_str::{CompactString, ReserveError};

/// Shortens a line to its first `len` bytes, a boundary of them.
pub fn cut(line: &mut CompactString, len: usize)
    requires { IsCharBoundary (utf8 line.old.text) len }
    ensures { utf8 line.new.text ≡ take len (utf8 line.old.text) }
{
    line.truncate(len);
}

/// Splits a line at a boundary of its bytes.
pub fn split(line: &mut CompactString, at: usize) -> Result<CompactString, ReserveError>
    requires { IsCharBoundary (utf8 line.old.text) at }
    ensures back { IfOk result (λ back. utf8 back.text ≡ drop at (utf8 line.old.text)) }
    ensures front { OnOk result (utf8 line.new.text ≡ take at (utf8 line.old.text)) }
{
    line.split_off(at)
}

/// Removes the character at a boundary.
pub fn remove_at(line: &mut CompactString, at: usize) -> Result<char, ReserveError>
    requires boundary { IsCharBoundary (utf8 line.old.text) at }
    requires within { at < length (utf8 line.old.text) }
    ensures { IfOk result
        (λ c. utf8 line.new.text ≡ remove_range (utf8 line.old.text) at (at + len_utf8 c)) }
{
    line.remove(at)
}

/// Removes the bytes from one boundary to another.
pub fn remove_part(line: &mut CompactString, start: usize, end: usize) -> Result<(), ReserveError>
    requires order { start ≤ end }
    requires first { IsBoundary line.old.text start }
    requires last { IsBoundary line.old.text end }
    ensures { OnOk result
        (utf8 line.new.text ≡ remove_range (utf8 line.old.text) start end) }
{
    drop(line.drain_within(start..end)?);
    Ok(())
}

/// Returns the bytes of a line, which are UTF-8.
pub fn bytes_of(line: &CompactString) -> &[u8]
    ensures bytes { result.now ≡ utf8 line.now.text }
    ensures valid { IsUtf8 (utf8 line.now.text) }
{
    line.as_bytes()
}

/// Returns the front of a line, up to a boundary.
pub fn front_of(line: &CompactString, len: usize) -> &str
    requires { IsBoundary line.now.text len }
    ensures { result.now ≡ take len (utf8 line.now.text) }
{
    &line[..len]
}
