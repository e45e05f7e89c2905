//! Numbers and formats as texts.
#![tactic(auto, using(compact_str::proofs::ForCallers::caller_facts, compact_ext::proofs::ForCallers::shown_facts))]

ghost use Rattle.std.specs.Prelude.{◌≡◌, ◌++◌, ◌∷◌, IfOk, codes, decimal};
ghost use Rattle.std.specs.Fmt.{signed_decimal};
ghost use Rattle.compact_str.specs.Text.{text_of};
ghost use Rattle.compact_str.specs.Value.{placed_text};
ghost use Rattle.compact_str.specs.Capacity.{inline_placement};

use compact_ext::{ToCompactString, ToCompactStringError, format_compact};
use compact_str::CompactString;
use std::alloc::Global;

/// Formats the key of a record; never allocates.
pub fn key_of(alloc: Global, number: u64) -> CompactString
    ensures { result ≡ placed_text (decimal number) inline_placement }
{
    match number.to_compact_string(alloc) {
        Ok(key) => key,
        Err(_) => unreachable!(),
    }
}

/// Formats a temperature with its unit.
#[tactic(auto, using(compact_str::proofs::PartFacts::literal_facts, compact_ext::proofs::ForCallers::shown_facts))]
pub fn temperature(alloc: Global, degrees: i32) -> Result<CompactString, ToCompactStringError>
    ensures { IfOk result (λ v. v.text ≡ signed_decimal degrees ++ codes " °C") }
{
    let mut text = degrees.try_to_compact_string(alloc)?;
    text.push_str(" °C")?;
    Ok(text)
}

/// Formats a field of any type.
pub fn field<T: ToCompactString>(
    alloc: Global,
    name: &str,
    value: &T,
) -> Result<CompactString, ToCompactStringError>
    ensures { IfOk result (λ v. v.text ≡ text_of name.now ++ codes "=" ++ T.shown_text value.now) }
{
    let mut line = CompactString::new(alloc, name)?;
    line.push('=')?;
    line.push_str(value.to_compact_string(alloc)?.as_str())?;
    Ok(line)
}

/// Formats the name of a spreadsheet cell: a letter and a number.
pub fn cell(alloc: Global, column: char, row: u32) -> Result<CompactString, ToCompactStringError>
    ensures { IfOk result (λ v. v.text ≡ column ∷ decimal row) }
{
    let text = format_compact!(in alloc; "{column}{row}")?;
    Ok(text)
}

/// Formats a version of three numbers.
pub fn version(
    alloc: Global,
    major: u8,
    minor: u8,
    patch: u16,
) -> Result<CompactString, ToCompactStringError>
    ensures { IfOk result
        (λ v. v.text ≡ decimal major ++ codes "." ++ decimal minor ++ codes "." ++ decimal patch) }
{
    let text = format_compact!(in alloc; "{major}.{minor}.{patch}")?;
    Ok(text)
}

/// Formats a name and a difference.
pub fn change(
    alloc: Global,
    name: &str,
    difference: i64,
) -> Result<CompactString, ToCompactStringError>
    ensures { IfOk result
        (λ v. v.text ≡ text_of name.now ++ codes " → " ++ signed_decimal difference) }
{
    let text = format_compact!(in alloc; "{name} → {difference}")?;
    Ok(text)
}
