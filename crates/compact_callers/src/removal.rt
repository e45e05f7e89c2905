//! Removing parts of a text. Only `every_second` and `every_second_counted`, whose closures have state, need a proof
//! file.
ghost use Rattle.std.specs.Prelude.{◌≡◌, ◌++◌, ◌∷◌, [], OnOk, OnErr, IfOk, not, false, filter, ◌==◌};
ghost use Rattle.compact_str.specs.Text.{ascii_lowercase};
ghost use Rattle.compact_str.specs.Cut.{substring, replaced_text};
ghost use Rattle.compact_str.specs.RetainRules.{retained_text, retain_state};
ghost use Rattle.compact_str.specs.Ranges.{IsRange, span, range_start, range_end};

use compact_str::{CompactString, ReserveError};
use std::ops::Bound;

/// Moves a range of one text to the end of another, then appends a mark to the first.
#[tactic(auto, using(compact_str::proofs::ForCallers::caller_facts))]
pub fn move_range(
    from: &mut CompactString,
    start: Bound<usize>,
    end: Bound<usize>,
    to: &mut CompactString,
) -> Result<(), ReserveError>
    requires { IsRange from.old.text (span start end) }
    ensures moved { OnOk result
        (to.new.text ≡ to.old.text
        ++ substring from.old.text (range_start start) (range_end from.old.text end)) }
    ensures left { OnOk result
        (from.new.text ≡ replaced_text from.old.text (range_start start)
        (range_end from.old.text end) [] ++ 46 ∷ []) }
{
    let drained = from.drain(start, end)?;
    to.push_str(drained.as_str())?;
    drop(drained);
    from.push('.')
}

/// Removes a range and returns its last character.
#[tactic(auto, using(compact_str::proofs::ForCallers::caller_facts))]
pub fn take_range(
    value: &mut CompactString,
    start: Bound<usize>,
    end: Bound<usize>,
) -> Result<Option<char>, ReserveError>
    requires { IsRange value.old.text (span start end) }
    ensures left { OnOk result
        (value.new.text ≡ replaced_text value.old.text (range_start start)
        (range_end value.old.text end) []) }
    ensures unchanged { OnErr result (value.new ≡ value.old) }
{
    let mut drained = value.drain(start, end)?;
    drained.next();
    Ok(drained.next_back())
}

/// Returns a lowercase copy of a name.
pub fn folded(name: &CompactString) -> Result<CompactString, ReserveError>
    ensures { IfOk result (λ small. small.text ≡ ascii_lowercase name.now.text) }
{
    name.to_ascii_lowercase()
}

/// Removes every space.
pub fn without_spaces(line: &mut CompactString) -> Result<(), ReserveError>
    ensures text { OnOk result (line.new.text ≡ filter (λ c. not (c == 32)) line.old.text) }
    ensures unchanged { OnErr result (line.new ≡ line.old) }
{
    line.retain(|character| character != ' ')
}

/// Removes every space, and sets `seen` if there was one. Sets nothing on `Err`.
pub fn note_spaces(line: &mut CompactString, seen: &mut bool) -> Result<(), ReserveError>
    ensures text { OnOk result (line.new.text ≡ filter (λ c. not (c == 32)) line.old.text) }
    ensures unchanged { OnErr result ((line.new ≡ line.old) × (seen.new ≡ seen.old)) }
{
    let mut keep = |character| {
        let is_space = character == ' ';
        *seen = *seen || is_space;
        !is_space
    };
    line.retain_by(&mut keep)
}

/// Keeps every second character, from the first on.
pub fn every_second(line: &mut CompactString) -> Result<(), ReserveError>
    ensures text { OnOk result
        (line.new.text ≡ retained_text (λ skip c. (not skip, not skip)) false line.old.text) }
    ensures unchanged { OnErr result (line.new ≡ line.old) }
{
    let mut skip = false;
    line.retain(|_| {
        let keep = !skip;
        skip = keep;
        keep
    })
}

/// The same, and returns `true` if the last character was kept; `false` if the text is empty.
pub fn every_second_counted(line: &mut CompactString) -> Result<bool, ReserveError>
    ensures text { OnOk result
        (line.new.text ≡ retained_text (λ kept c. (not kept, not kept)) false line.old.text) }
    ensures last { IfOk result
        (λ b. b ≡ retain_state (λ kept c. (not kept, not kept)) false line.old.text) }
    ensures unchanged { OnErr result (line.new ≡ line.old) }
{
    let mut kept = false;
    let mut keep = |_| {
        kept = !kept;
        kept
    };
    line.retain_by(&mut keep)?;
    Ok(kept)
}
