//! Writing bytes, so that what was written before an error is known.
ghost use Rattle.std.specs.Prelude.{OnErr, OnOk};
ghost use Rattle.std.specs.Io.KnownBytes.{Appends};
ghost use Rattle.compact_lines.specs.Lines.{AppendsFront, bytes_of};

use std::io;
use std::io::{ErrorKind, Write};

/// Writes each text in turn.
///
/// # Errors
///
/// The writer's error, after writing a prefix of the bytes.
pub fn write_texts<W: Write>(texts: &[&str], writer: &mut W) -> io::Result<()>
    ensures ok { OnOk result (Appends (W.contents writer.old) (W.contents writer.new)
        (bytes_of texts.now)) }
    ensures err { OnErr result (AppendsFront (W.contents writer.old) (W.contents writer.new)
        (bytes_of texts.now)) }
{
    for text in texts {
        write_whole(text.as_bytes(), writer)?;
    }
    Ok(())
}

/// Writes all of the bytes, retrying interrupted calls.
///
/// # Errors
///
/// The writer's error, after writing a prefix of the bytes.
fn write_whole<W: Write>(bytes: &[u8], writer: &mut W) -> io::Result<()>
    ensures ok { OnOk result (Appends (W.contents writer.old) (W.contents writer.new) bytes.now) }
    ensures err { OnErr result (AppendsFront (W.contents writer.old) (W.contents writer.new)
        bytes.now) }
{
    let mut rest = bytes;
    for _ in 0..u64::MAX {
        if rest.is_empty() {
            return Ok(());
        }
        match writer.write(rest) {
            Ok(0) => return Err(io::Error::from(ErrorKind::WriteZero)),
            Ok(count) => rest = &rest[count..],
            Err(error) => {
                if error.kind() != ErrorKind::Interrupted {
                    return Err(error);
                }
            }
        }
    }
    // Unreachable in practice: no program runs for that many calls.
    Err(io::Error::from(ErrorKind::Other))
}
