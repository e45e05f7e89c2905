//! Records of comma-separated fields, read by the crate `csv`.
ghost use Rattle.std.specs.Prelude.{◌≡◌, IfOk, IfSome, OnErr, OnOk, length, map, take};
ghost use Rattle.csv.specs.Records.{fields_of};
ghost use Rattle.compact_uses.specs.Records.{bytes_in, ReadsAll, ReadsFirst};

use compact_str::{CompactString, ReserveError};
use csv::{Error, ReaderBuilder, StringRecord};
use std::alloc::Global;
use std::io::Read;

/// Reads all records of a reader without a header row, and appends their fields to the list. Records may differ in
/// length.
///
/// # Errors
///
/// Returns an [`Error`] of the kind `Io` if the reader fails, `OutOfMemory` if allocation fails, and `Utf8` if a field
/// is not valid UTF-8. The records before it are in the list.
///
/// # Examples
///
/// The bytes `a,"b,""c"`, 0A and `d` are a record of the fields `a` and `b,"c` and one of the field `d`.
#[tactic(auto, using(crate::proofs::RecordLemmas::record_facts))]
pub fn read_records<R: Read + Drop>(
    alloc: Global,
    reader: R,
    records: &mut Vec<Vec<CompactString>>,
) -> Result<(), Error>
    // Appends all records of the bytes, or on failure the first ones.
    ensures ok { OnOk result (IfSome (R.remaining reader) (λ bytes.
        ReadsAll bytes records.old.items records.new.items)) }
    ensures err { OnErr result (IfSome (R.remaining reader) (λ bytes.
        ReadsFirst bytes records.old.items records.new.items)) }

    // Keeps the records that were in the list, of any reader.
    ensures kept { take (length records.old.items) records.new.items ≡ records.old.items }
{
    let source = ReaderBuilder::new()
        .has_headers(false)
        .flexible(true)
        .from_reader(alloc, reader);
    for row in source.into_records() {
        let Ok(fields) = fields_of(alloc, &row?) else {
            return Err(Error::out_of_memory());
        };
        if records.push(fields).is_err() {
            return Err(Error::out_of_memory());
        }
    }
    Ok(())
}

/// Copies the fields of a record.
#[tactic(auto, using(compact_str::proofs::ForCallers::caller_facts, crate::proofs::RecordLemmas::field_facts))]
fn fields_of(alloc: Global, row: &StringRecord) -> Result<Vec<CompactString>, ReserveError>
    ensures { IfOk result (λ fields. map bytes_in fields.items ≡ fields_of row.now) }
{
    let mut fields = Vec::new(alloc);
    for field in row {
        fields.push(CompactString::new(alloc, field)?)?;
    }
    Ok(fields)
}
