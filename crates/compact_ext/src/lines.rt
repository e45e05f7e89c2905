//! Reading a line into a string that is used again.
ghost use Rattle.std.specs.Prelude.{◌≡◌, ◌+◌, ◌≤◌, ◌++◌, IfOk, IfErr, IfSome, OnSome, OnOk, OnErr, MatchOption};
ghost use Rattle.std.specs.Io.{StartsWith, appended_bytes};
ghost use Rattle.std.specs.Io.BufRead.{take_through, DropsThrough};
ghost use Rattle.std.specs.Io.KnownBytes.{Consumes, IsAtEnd, Keeps};
ghost use Rattle.compact_str.specs.Text.{size, text_of, utf8};
ghost use Rattle.compact_str.specs.Room.{infallible_capacity};
ghost use Rattle.compact_str.specs.Words.{PlacedFor, room_to_append, standard_growth};
ghost use Rattle.compact_ext.specs.Lines.{newline, AppendsBytes, AppendsLine, BeginsWithLine, IsAppendFault, LineFails, TakesLine};

use compact_codec::utf8::validate;
use compact_str::{CompactString, ReserveError};
use memchr::memchr;
use std::alloc::AllocError;
use std::io;
use std::io::{BufRead, ErrorKind};
use thiserror::Error;

/// The error of [`read_line`].
#[derive(Debug, Drop, Error)]
pub enum ReadLineError {
    /// The line is not valid UTF-8. All of it has been read.
    #[error("invalid utf-8")]
    Utf8,
    /// The reader failed. A beginning of the line has been read.
    #[error("input failed")]
    Io(io::Error),
    /// Allocation failed. A beginning of the line has been read.
    #[error("{0}")]
    Reserve(ReserveError),
}

impl From<ReserveError> for ReadLineError {
    ghost use Rattle.compact_ext.specs.declared.lines.ReadLineError.TheVariants.{Reserve};

    ghost from_gives = { λ e error. error ≡ Reserve e };

    /// The case `Reserve`.
    fn from(error: ReserveError) -> Self {
        ReadLineError::Reserve(error)
    }
}

impl From<AllocError> for ReadLineError {
    ghost use Rattle.compact_ext.specs.declared.lines.ReadLineError.TheVariants.{Reserve};

    ghost from_gives = { λ _ error. error ≡ Reserve (record {}) };

    /// The case `Reserve`, for `push` of a `Vec` of lines.
    fn from(error: AllocError) -> Self {
        ReadLineError::Reserve(ReserveError::from(error))
    }
}

impl From<io::Error> for ReadLineError {
    ghost use Rattle.compact_ext.specs.declared.lines.ReadLineError.TheVariants.{Io};

    ghost from_gives = { λ e error. error ≡ Io e };

    /// The case `Io`.
    fn from(error: io::Error) -> Self {
        ReadLineError::Io(error)
    }
}

impl From<ReadLineError> for io::Error {
    ghost use Rattle.std.specs.IoError.{error_kind};
    ghost use Rattle.compact_ext.specs.Lines.{line_error_kind};

    ghost from_gives = { λ error converted. error_kind converted ≡ line_error_kind error };

    /// `InvalidData` for `Utf8`, the error itself for `Io`, and `OutOfMemory` for `Reserve`.
    fn from(error: ReadLineError) -> io::Error {
        match error {
            ReadLineError::Utf8 => io::Error::from(ErrorKind::InvalidData),
            ReadLineError::Io(error) => error,
            ReadLineError::Reserve(_) => io::Error::from(ErrorKind::OutOfMemory),
        }
    }
}

/// Reads a line and appends it, with its newline. Returns how many bytes were read, which is 0 only at the end of the
/// input. The last line may lack its newline.
///
/// A line that the reader's buffer shows whole, with its newline, is validated and copied once, and needs no memory if
/// it fits. Any other is gathered in a vector first. Retries while interrupted, like `BufRead::read_line`.
///
/// # Errors
///
/// - `Utf8` if the line is not valid UTF-8. All of it has been consumed, so the next call reads the next line.
/// - `Io` if the reader fails. A beginning of the line has been consumed.
/// - `Reserve` if allocation fails, or the reader fails with `OutOfMemory`. A beginning of the line has been consumed.
///
/// `line` is then unchanged. No clause says when it succeeds, since any reader may fail.
///
/// # Examples
///
/// ```
/// let mut input = b"caf\xC3\xA9\r\nnoir".as_slice();
/// let mut line = CompactString::new(alloc, "> ")?;
/// assert_eq!(rt; read_line(&mut input, &mut line)?, 7);
/// assert_eq!(rt; line.as_str(), "> café\r\n");
///
/// line.clear();
/// assert_eq!(rt; read_line(&mut input, &mut line)?, 4);
/// assert_eq!(rt; line.as_str(), "noir");
/// assert_eq!(rt; read_line(&mut input, &mut line)?, 0);
/// ```
pub fn read_line<R: BufRead>(
    reader: &mut R,
    line: &mut CompactString,
) -> Result<usize, ReadLineError>
    // Appends the bytes through the next newline, or all that are left.
    ensures text { OnOk result (IfSome (R.remaining reader.old)
        (λ xs. line.new.text ≡ line.old.text ++ text_of (take_through newline xs))) }
    ensures bytes { OnOk result (IfSome (R.remaining reader.old)
        (λ xs. utf8 line.new.text ≡ utf8 line.old.text ++ take_through newline xs)) }
    ensures rest { OnOk result
        (DropsThrough (R.remaining reader.old) (R.remaining reader.new) newline) }
    ensures place { IfOk result
        (λ n. PlacedFor standard_growth line.old line.new (room_to_append n)) }
    ensures room { OnOk result (infallible_capacity line.old ≤ infallible_capacity line.new) }

    // Returns how many bytes these are. At any reader, they are one line.
    ensures len { IfOk result (λ n. size line.new.text ≡ size line.old.text + n) }
    ensures end { IfOk result (λ n. n ≡ 0 → IsAtEnd (R.remaining reader.old)) }
    ensures at_end { IfOk result (λ n. n ≡ 0
        → OnSome (R.remaining reader.old) (IsAtEnd (R.remaining reader.new))) }
    ensures front { StartsWith (utf8 line.new.text) (utf8 line.old.text) }
    ensures consumed { OnOk result (TakesLine (R.remaining reader.old) (R.remaining reader.new)
        (appended_bytes (utf8 line.old.text) (utf8 line.new.text))) }

    // Each error leaves the string unchanged, and comes with what was consumed.
    ensures err { OnErr result (line.new ≡ line.old) }
    ensures cause { IfErr result
        (LineFails (R.remaining reader.old) (R.remaining reader.new)) }
{
    match append_shown(reader, line)? {
        Some(len) => Ok(len),
        None => append_gathered(reader, line),
    }
}

/// Appends a line that the reader's buffer shows whole, with its newline. Returns `None` if it shows none.
fn append_shown<R: BufRead>(
    reader: &mut R,
    line: &mut CompactString,
) -> Result<Option<usize>, ReadLineError>
    ensures line { IfOk result (λ found. MatchOption found
        ((line.new ≡ line.old) × Keeps (R.remaining reader.old) (R.remaining reader.new))
        (AppendsLine (R.remaining reader.old) (R.remaining reader.new) line.old line.new)) }
    ensures err { OnErr result (line.new ≡ line.old) }
    ensures cause { IfErr result
        (LineFails (R.remaining reader.old) (R.remaining reader.new)) }
{
    let shown = match reader.fill_buf() {
        Ok(shown) => shown,
        Err(error) if error.kind() == ErrorKind::Interrupted => return Ok(None),
        Err(error) => return Err(ReadLineError::Io(error)),
    };
    let Some(len) = line_len(shown) else {
        return Ok(None);
    };
    let appended = append(line, &shown[..len]);
    reader.consume(len);
    appended?;
    Ok(Some(len))
}

/// Returns the length of the first line with its newline, or `None` if there is no newline.
fn line_len(bytes: &[u8]) -> Option<usize>
    ensures { IfSome result (BeginsWithLine bytes.now) }
{
    let at = memchr(b'\n', bytes)?;
    Some(at + 1)
}

/// Appends a line that is gathered in a vector.
#[tactic(auto, using(compact_text::proofs::TextFacts::text_facts, crate::proofs::Facts::lines_facts))]
fn append_gathered<R: BufRead>(
    reader: &mut R,
    line: &mut CompactString,
) -> Result<usize, ReadLineError>
    ensures line { IfOk result
        (AppendsLine (R.remaining reader.old) (R.remaining reader.new) line.old line.new) }
    ensures err { OnErr result (line.new ≡ line.old) }
    ensures cause { IfErr result
        (LineFails (R.remaining reader.old) (R.remaining reader.new)) }
{
    let mut bytes = Vec::new(line.allocator());
    match reader.read_until(b'\n', &mut bytes) {
        Ok(len) => {
            append(line, &bytes)?;
            Ok(len)
        }
        Err(error) if error.kind() == ErrorKind::OutOfMemory => {
            Err(ReadLineError::Reserve(ReserveError))
        }
        Err(error) => Err(ReadLineError::Io(error)),
    }
}

/// Appends bytes if they are valid UTF-8.
#[tactic(auto, using(crate::proofs::TakenLines::line_facts))]
fn append(line: &mut CompactString, bytes: &[u8]) -> Result<(), ReadLineError>
    ensures ok { OnOk result (AppendsBytes line.old line.new bytes.now) }
    ensures err { OnErr result (line.new ≡ line.old) }
    ensures cause { IfErr result (IsAppendFault line.old bytes.now) }
{
    let Ok(text) = validate(bytes) else {
        return Err(ReadLineError::Utf8);
    };
    line.push_str(text)?;
    Ok(())
}
