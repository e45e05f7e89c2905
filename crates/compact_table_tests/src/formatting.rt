//! Making values by formatting numbers, texts and formats.

use crate::constructors::make_of_listed;
use crate::long_texts::halves_at;
use crate::owned_operands::Listed;
use crate::table::Case;
use crate::try_line::Made;
use compact_ext::{ToCompactString, ToCompactStringError, format_compact};
use compact_str::CompactString;
use std::alloc::Global;
use std::fmt;
use std::fmt::Display;
use std::num::{NonZeroI128, NonZeroU128};

/// Writes two texts, and returns `Ok` even if that fails.
#[derive(Drop)]
struct Hiding<'a>(&'a str, &'a str);

impl Display for Hiding<'_> {
    fn fmt<W: fmt::Write>(&self, f: &mut fmt::Formatter<W>) -> fmt::Result {
        let _first = f.write_str(self.0).is_err();
        let _last = f.write_str(self.1).is_err();
        Ok(())
    }
}

/// Makes the value of a case that formats, or that has an operand made before.
pub fn show(case: &Case<'_>, alloc: Global) -> Made {
    let (first, last) = (case.word(0), case.word(1));
    match case.name {
        "format_compact!" => format_both(first, last, alloc),
        "format_compact!:hiding" => format_hiding(first, last, alloc),
        _ => match halves_at(case.name, ':') {
            Some(("to_compact_string", kind)) => show_as(case, kind, false, alloc),
            Some(("try_to_compact_string", kind)) => show_as(case, kind, true, alloc),
            _ => make_of_listed(case, alloc),
        },
    }
}

/// Formats an operand of this type, by `try_to_compact_string` if `is_tried`.
fn show_as(case: &Case<'_>, kind: &str, is_tried: bool, alloc: Global) -> Made {
    let word = case.word(0);
    match kind {
        "u128" => show_item(word.parse::<u128>().ok(), is_tried, alloc),
        "i128" => show_item(word.parse::<i128>().ok(), is_tried, alloc),
        "NonZeroU128" => show_item(word.parse::<NonZeroU128>().ok(), is_tried, alloc),
        "NonZeroI128" => show_item(word.parse::<NonZeroI128>().ok(), is_tried, alloc),
        "str" => show_item(Some(word), is_tried, alloc),
        "String" => show_string(&case.listed, is_tried, alloc),
        _ => Made::Unknown,
    }
}

fn show_item<T: ToCompactString + Drop>(item: Option<T>, is_tried: bool, alloc: Global) -> Made {
    match item {
        Some(item) => show_lent(&item, is_tried, alloc),
        None => Made::Unknown,
    }
}

fn show_lent<T: ToCompactString>(item: &T, is_tried: bool, alloc: Global) -> Made {
    if is_tried {
        shown(item.try_to_compact_string(alloc))
    } else {
        shown(item.to_compact_string(alloc))
    }
}

fn format_both(first: &str, last: &str, alloc: Global) -> Made {
    shown(format_compact!(in alloc; "{first}{last}"))
}

fn format_hiding(first: &str, last: &str, alloc: Global) -> Made {
    shown(format_compact!(in alloc; "{}", Hiding(first, last)))
}

fn show_string(listed: &Listed, is_tried: bool, alloc: Global) -> Made {
    match listed.strings().first() {
        Some(string) => show_lent(string, is_tried, alloc),
        None => Made::Unknown,
    }
}

fn shown(outcome: Result<CompactString, ToCompactStringError>) -> Made {
    match outcome {
        Ok(value) => Made::Value(value),
        Err(ToCompactStringError::Reserve(_)) => Made::Refused,
        Err(ToCompactStringError::Fmt(_)) => Made::Fault,
    }
}
