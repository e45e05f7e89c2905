//! Calls on a part of a value, as a Rust range.
ghost use Rattle.std.specs.Prelude.{IfSome};
ghost use Rattle.std.specs.declared.ops.Bound.TheVariants.{Included, Excluded};
ghost use Rattle.compact_str.specs.Ranges.{IsRange, span};

use crate::calls::done;
use crate::long_texts::number;
use compact_edit::Reply;
use compact_str::{CompactString, Standard};
use std::ops::Bound;

/// Returns the reply to such a call, with a range such as `1..2`. Returns a bad position if the range is invalid or
/// there is no such call.
pub fn reply_within(
    name: &str,
    value: &mut CompactString,
    range: &str,
    text: &str,
) -> Reply<Standard> {
    let Some((start, end)) = range_of(value, range) else {
        return Reply::BadPosition;
    };
    match name {
        "extend_from_within" => done(value.extend_from_within(start..end)),
        "replace_within" => done(value.replace_within(start..end, text)),
        "drain_within" => match value.drain_within(start..end) {
            Ok(drained) => {
                drop(drained);
                Reply::Done
            }
            Err(error) => Reply::Refused(error),
        },
        _ => Reply::BadPosition,
    }
}

/// Parses the start and end of a range, if it is one of the text.
fn range_of(value: &CompactString, range: &str) -> Option<(usize, usize)>
    ensures { IfSome result
        (λ range. IsRange value.now.text (span (Included range.0) (Excluded range.1))) }
{
    let (start, end) = range.split_once("..")?;
    let (start, end) = (number(start)?, number(end)?);
    value.check_range(Bound::Included(start), Bound::Excluded(end))
}
