//! Values as the holes of `write!` and `format_compact!`, with contracts in characters.
#![tactic(auto, using(compact_str::proofs::ForCallers::caller_facts, compact_str::proofs::ForCallers::byte_facts))]

ghost use Rattle.std.specs.Prelude.{◌≡◌, ◌++◌, IfOk, OnOk, codes, decimal};
ghost use Rattle.compact_str.specs.Text.{text_of};

use compact_ext::{ToCompactStringError, format_compact};
use compact_str::{CompactString, ReserveError};
use std::alloc::Global;

/// Formats an address.
pub fn address(
    alloc: Global,
    host: &CompactString,
    port: u16,
) -> Result<CompactString, ToCompactStringError>
    ensures { IfOk result (λ v. v.text ≡ host.now.text ++ (codes ":" ++ decimal port)) }
{
    format_compact!(in alloc; "{host}:{port}")
}

/// Appends a field.
pub fn append_field(
    line: &mut CompactString,
    key: &CompactString,
    value: &CompactString,
) -> Result<(), ReserveError>
    ensures { OnOk result
        (line.new.text ≡ line.old.text ++ (key.now.text ++ (codes "=" ++ value.now.text))) }
{
    write!(line, "{key}={value}")
}
