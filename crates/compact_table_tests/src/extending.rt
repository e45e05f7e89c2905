//! Calls that append items one by one: on failure the earlier items are kept.

use crate::table::Case;
use compact_str::CompactString;
use std::borrow::CowStr;

/// Extends a value, and returns `true` if all was appended.
pub fn extend(case: &Case<'_>, value: &mut CompactString) -> bool {
    match case.name {
        "extend_texts" => value.extend_texts(case.operands.iter()).is_ok(),
        "extend_chars" => value.extend_chars(case.word(0).chars()).is_ok(),
        "extend:&str" => value.extend(case.operands.iter()).is_ok(),
        "extend:char" => value.extend(case.word(0).chars()).is_ok(),
        "extend:&char" => value.extend(case.listed.characters().iter()).is_ok(),
        "extend:String" => value.extend(case.listed.strings().iter()).is_ok(),
        "extend:BoxedStr" => value.extend(case.listed.boxes().iter()).is_ok(),
        "extend:CowStr" => value
            .extend(case.operands.iter().map(|text| CowStr::Borrowed(*text)))
            .is_ok(),
        "extend:CompactString" => value.extend(case.listed.values().iter()).is_ok(),
        _ => false,
    }
}
