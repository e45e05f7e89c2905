//! Sorting values, and removing repeated ones. It needs an answer of one line.

ghost use Rattle.std.specs.Prelude.{IfOk};
ghost use Rattle.std.specs.List.Sorted.{IsStrictlySortedBy};
ghost use Rattle.compact_str.specs.Order.{text_cmp};

use compact_str::CompactString;
use std::alloc::AllocError;

/// Sorts names, and removes repeated ones.
pub fn distinct_names(mut names: Vec<CompactString>) -> Result<Vec<CompactString>, AllocError>
    ensures { IfOk result (λ distinct. IsStrictlySortedBy text_cmp distinct.items) }
{
    names.sort()?;
    names.dedup();
    Ok(names)
}
