//! Writing texts in the wire form and reading them. `first_record`, `read_texts`, `sent_and_received` and
//! `pair_sent_and_received` need a proof file.
#![tactic(auto, using(compact_ext::proofs::WireFacts::wire_facts))]

ghost use Rattle.std.specs.Prelude.{◌≡◌, ◌⊎◌, ◌++◌, ◌∷◌, [], ℕ, List, Option, map, Some, IfOk, IfSome, OnOk, MatchOption, MatchResult, IsTrue};
ghost use Rattle.std.specs.List.{All, flat_map};
ghost use Rattle.std.specs.Io.{StartsWith};
ghost use Rattle.std.specs.Io.KnownBytes.{Appends, Consumes, IsAtEnd, Keeps};
ghost use Rattle.compact_str.specs.Capacity.{from_string_placement};
ghost use Rattle.compact_str.specs.Text.{size};
ghost use Rattle.compact_ext.specs.Wire.{wire, HasForm, IsOutsideForm};
ghost use Rattle.compact_ext.specs.WireRecords.{records_left, unread_bytes, GivesNext, GivesRecord, FailsWithin, HasTexts};
ghost use Rattle.compact_ext.specs.declared.wire.WireError.TheVariants.{Utf8};

use compact_ext::wire::{Records, WireError, read_wire, write_wire};
use compact_str::{CompactString, ReserveError};
use std::alloc::Global;
use std::io::{BufRead, Read, Write};

/// Writes a name, then a value.
pub fn send_field<W: Write>(
    name: &CompactString,
    value: &CompactString,
    writer: &mut W,
) -> Result<(), WireError>
    ensures { OnOk result
        (Appends (W.contents writer.old) (W.contents writer.new)
        (wire name.now.text ++ wire value.now.text)) }
{
    write_wire(name, writer)?;
    write_wire(value, writer)
}

/// Reads a name and a value.
pub fn receive_field<R: Read>(
    alloc: Global,
    reader: &mut R,
) -> Result<(CompactString, CompactString), WireError>
    ensures { IfOk result (λ field.
        Consumes (R.remaining reader.old) (R.remaining reader.new)
        (wire field.0.text ++ wire field.1.text)) }
{
    let name = read_wire(alloc, reader)?;
    let value = read_wire(alloc, reader)?;
    Ok((name, value))
}

/// Writes a text into a vector and reads it back.
pub fn sent_and_received(alloc: Global, text: &CompactString) -> Result<CompactString, WireError>
    ensures { IfOk result (λ back. back.text ≡ text.now.text) }
{
    let mut bytes = Vec::new(alloc);
    write_wire(text, &mut bytes)?;
    let mut rest = bytes.as_slice();
    read_wire(alloc, &mut rest)
}

/// Writes two texts into a vector and reads them back.
pub fn pair_sent_and_received(
    alloc: Global,
    name: &CompactString,
    value: &CompactString,
) -> Result<Vec<CompactString>, WireError>
    ensures { IfOk result (λ back.
        map (λ v. v.text) back.items ≡ name.now.text ∷ value.now.text ∷ []) }
{
    let mut bytes = Vec::new(alloc);
    write_wire(name, &mut bytes)?;
    write_wire(value, &mut bytes)?;
    Records::new(alloc, bytes.as_slice()).into_vec()
}

/// Reads the next record, or returns `None` at the end.
pub fn next_record<R: BufRead>(
    alloc: Global,
    reader: &mut R,
) -> Result<Option<CompactString>, WireError>
    ensures taken { IfOk result (λ found. MatchOption found
        (IsAtEnd (R.remaining reader.old) × Keeps (R.remaining reader.old) (R.remaining reader.new))
        (λ v. Consumes (R.remaining reader.old) (R.remaining reader.new) (wire v.text))) }
{
    if is_at_end(reader)? {
        return Ok(None);
    }
    let record = read_wire(alloc, reader)?;
    Ok(Some(record))
}

/// Returns `true` if a reader is at its end.
fn is_at_end<R: BufRead>(reader: &mut R) -> Result<bool, WireError>
    ensures end { IfOk result (λ b. IsTrue b → IsAtEnd (R.remaining reader.old)) }
    ensures kept { Keeps (R.remaining reader.old) (R.remaining reader.new) }
{
    let bytes = reader.fill_buf()?;
    Ok(bytes.is_empty())
}

/// Reads the wire records until the end.
pub fn read_records<R: BufRead + Drop>(
    alloc: Global,
    reader: R,
) -> Result<Vec<CompactString>, WireError>
    ensures taken { IfOk result (λ records.
        IfSome (R.remaining reader) (λ bytes. bytes ≡ flat_map (λ v. wire v.text) records.items)) }
    ensures placed { IfOk result (λ records.
        All (λ v. v.placement ≡ from_string_placement v.text (size v.text)) records.items) }
{
    Records::new(alloc, reader).into_vec()
}

/// Reads the first record, or returns `None` if there is none.
pub fn first_record<R: BufRead + Drop>(
    alloc: Global,
    reader: R,
) -> Result<Option<CompactString>, WireError>
    ensures taken { IfOk result (λ found. IfSome found (λ v.
        IfSome (R.remaining reader) (λ bytes. StartsWith bytes (wire v.text)))) }
    ensures placed { IfOk result (λ found.
        IfSome found (λ v. v.placement ≡ from_string_placement v.text (size v.text))) }
    ensures back { (text rest : List ℕ) → HasForm text
        → R.remaining reader ≡ Some (wire text ++ rest)
        → MatchResult result (λ found. MatchOption found ⊥ (λ v. v.text ≡ text))
        (IsOutsideForm (size text)) }
{
    Records::new(alloc, reader).next().transpose()
}

/// Reads the next text, skipping one record that is not valid UTF-8.
pub fn next_text<R: BufRead + Drop>(
    records: &mut Records<R>,
) -> Option<Result<CompactString, WireError>>
    ensures { GivesRecord R.remaining records.old result records.new
        ⊎ ((behind : Option (List ℕ))
        × FailsWithin (records_left R.remaining records.old) behind Utf8
        × GivesNext behind result (unread_bytes R.remaining result records.new)) }
{
    match records.next() {
        Some(Err(WireError::Utf8)) => records.next(),
        item => item,
    }
}

/// Reads the texts until the end, skipping records that are not valid UTF-8.
#[tactic(auto, using(compact_ext::proofs::WireFacts::passed_text_facts))]
pub fn read_texts<R: BufRead + Drop>(
    alloc: Global,
    reader: R,
) -> Result<Vec<CompactString>, WireError>
    ensures { IfOk result (λ texts.
        IfSome (R.remaining reader) (λ bytes. HasTexts bytes (map (λ v. v.text) texts.items))) }
{
    let mut texts = Vec::new(alloc);
    for item in Records::new(alloc, reader) {
        let text = match item {
            Ok(text) => text,
            Err(WireError::Utf8) => continue,
            Err(fault) => return Err(fault),
        };
        if texts.push(text).is_err() {
            return Err(WireError::Reserve(ReserveError));
        }
    }
    Ok(texts)
}
