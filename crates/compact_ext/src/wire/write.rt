//! Writing a wire form.
ghost use Rattle.std.specs.Prelude.{◌^◌, ◌<◌, ◌++◌, IfErr, OnOk};
ghost use Rattle.std.specs.Io.KnownBytes.{Appends};
ghost use Rattle.compact_str.specs.Text.{size};
ghost use Rattle.compact_str.specs.Value.{IsSound};
ghost use Rattle.compact_ext.specs.Wire.{wire, WriteFails, WritesFront, IsWriterFault};

use super::WireError;
use compact_str::CompactString;
use std::io::Write;

/// Writes the wire form of `text`: its length in bytes as four bytes, the low one first, and then its bytes. Writes in
/// pieces and does not flush. Never allocates.
///
/// # Errors
///
/// - `TooLong` if the text has more than 2^32 - 1 bytes. Nothing was written.
/// - `Io` if the writer fails, or `WriteZero` if it accepts no bytes. Less than the form has been written, perhaps
///   nothing.
///
/// No clause says when it succeeds, since any writer may fail.
///
/// # Examples
///
/// ```
/// let euro = CompactString::new(alloc, "€")?;
/// let mut bytes = Vec::new(alloc);
/// write_wire(&euro, &mut bytes)?;
/// assert_eq!(rt; bytes.as_slice(), [3, 0, 0, 0, 0xE2, 0x82, 0xAC].as_slice());
/// ```
#[inline]
pub fn write_wire<W: Write>(text: &CompactString, writer: &mut W) -> Result<(), WireError>
    // Writes the form of `text`.
    ensures written { OnOk result
        (Appends (W.contents writer.old) (W.contents writer.new) (wire text.now.text)) }
    ensures fits { OnOk result (size text.now.text < 2 ^ 32) }
    ensures sound { IsSound text.now }

    // `TooLong` if the text has 2^32 bytes or more, and nothing is written. Otherwise the writer
    // failed, and a part of the form is written, perhaps none of it.
    ensures err { IfErr result (λ e.
        WriteFails (W.contents writer.old) (W.contents writer.new) text.now.text e) }
{
    let bytes = text.as_bytes();
    let Ok(len) = u32::try_from(text.len()) else {
        return Err(WireError::TooLong);
    };
    write_form(&len.to_le_bytes(), bytes, writer)
}

/// Writes the length and then the text.
#[inline]
#[tactic(auto, using(crate::proofs::WireLemmas::front_facts))]
fn write_form<W: Write>(head: &[u8; 4], bytes: &[u8], writer: &mut W) -> Result<(), WireError>
    ensures written { OnOk result
        (Appends (W.contents writer.old) (W.contents writer.new) (head.now ++ bytes.now)) }
    ensures err { IfErr result (λ e.
        WritesFront (W.contents writer.old) (W.contents writer.new) (head.now ++ bytes.now)) }
    ensures fault { IfErr result IsWriterFault }
{
    write_each(head, writer)?;
    write_each(bytes, writer)
}

/// Writes all bytes; makes no call if `bytes` is empty.
#[inline]
fn write_each<W: Write>(bytes: &[u8], writer: &mut W) -> Result<(), WireError>
    ensures written { OnOk result
        (Appends (W.contents writer.old) (W.contents writer.new) bytes.now) }
    ensures err { IfErr result (λ e.
        WritesFront (W.contents writer.old) (W.contents writer.new) bytes.now) }
    ensures fault { IfErr result IsWriterFault }
{
    let mut rest = bytes;
    while !rest.is_empty() {
        match writer.write(rest) {
            Ok(0) => return Err(WireError::WriteZero),
            Ok(count) => rest = &rest[count..],
            Err(error) => return Err(WireError::Io(error)),
        }
    }
    Ok(())
}
