//! An iterator over wire forms until the end of a reader.
ghost use Rattle.std.specs.Prelude.{◌≡◌, ◌<◌, ◌≤◌, length, IfOk, IfErr, MatchOption, OnErr, IsUtf8};
ghost use Rattle.std.specs.List.{All};
ghost use Rattle.compact_str.specs.Text.{IsText, utf8};
ghost use Rattle.compact_str.specs.Words.{INLINE_CAPACITY};
ghost use Rattle.compact_ext.specs.WireRecords.{records_left, calls_to_come, AreForms, FailsAtSome, FitsForm, GivesNext, GivesRecord, IsPlacedAsRead, ReadsAllBack, BeginsWithForm, BeginsWithNoForm};
ghost use Rattle.compact_ext.specs.Wire.{claimed_len};

use super::read::number_of;
use super::{WireError, read_wire};
use compact_codec::utf8::is_utf8;
use compact_str::{CompactString, INLINE_CAPACITY, ReserveError};
use compact_text::vec;
use std::alloc::Global;
use std::io;
use std::io::{BufRead, ErrorKind};

// The bytes of the length.
const HEAD: usize = 4;

/// An iterator over the strings whose wire forms follow each other in a reader, each read like `read_wire`.
///
/// `next` returns `None` at the end of the reader, or `UnexpectedEnd` if that is inside a form. After an error it
/// continues from where the reader is: after `Utf8` that is the next form.
///
/// A form that the reader's buffer shows whole is copied once, so reading from a slice or a `BufReader` is faster than
/// by `read_wire`. If that copy fails, only the length has been consumed.
///
/// A reader need not end. So the call after 2^64 - 2 others returns an `Io` of the kind `TimedOut`, and later ones
/// `None`.
///
/// # Examples
///
/// ```
/// let bytes = b"\x01\0\0\0a\x01\0\0\0\xFF\x02\0\0\0\xC3\xA9".as_slice();
/// let mut records = Records::new(alloc, bytes);
/// assert!(rt; matches!(records.next(), Some(Ok(text)) if text.as_str() == "a"));
/// assert!(rt; matches!(records.next(), Some(Err(WireError::Utf8))));
/// assert!(rt; matches!(records.next(), Some(Ok(text)) if text.as_str() == "é"));
/// assert!(rt; records.next().is_none());
/// ```
#[derive(Drop)]
pub struct Records<R: BufRead + Drop> {
    reader: R,
    alloc: Global,
    calls_left: u64,
}

impl<R: BufRead + Drop> Records<R> {
    /// Returns an iterator over the forms in `reader`. Reads nothing yet. See [`Records`].
    pub fn new(alloc: Global, reader: R) -> Self
        ensures { records_left R.remaining result ≡ R.remaining reader }
    {
        Records {
            reader,
            alloc,
            calls_left: u64::MAX,
        }
    }

    /// Reads all strings up to the end of the reader.
    ///
    /// # Errors
    ///
    /// The first error of `next`, or `Reserve` if the vector cannot grow. The strings before it are dropped. If only
    /// whole forms are left, it fails only if the reader or an allocation does; if none is left, only if the reader
    /// does. No clause says when it succeeds, since any reader may fail.
    ///
    /// # Examples
    ///
    /// ```
    /// let bytes = b"\x02\0\0\0\xC3\xA9\0\0\0\0".as_slice();
    /// let texts = Records::new(alloc, bytes).into_vec()?;
    /// assert_eq!(rt; texts.len(), 2);
    /// assert_eq!(rt; texts[0].as_str(), "é");
    /// assert_eq!(rt; texts[1].as_str(), "");
    /// ```
    pub fn into_vec(self) -> Result<Vec<CompactString>, WireError>
        // Reads all forms to the end, and places each string as `read_wire` does.
        ensures forms { IfOk result (λ all. AreForms (records_left R.remaining self) all.items) }
        ensures fits { IfOk result (λ all. All FitsForm all.items) }
        ensures place { IfOk result (λ all. All IsPlacedAsRead all.items) }

        // If only whole forms are left, fails only if the reader or an allocation does. Else fails
        // after the forms before the first error.
        ensures back { ReadsAllBack (records_left R.remaining self) result }
        ensures err { IfErr result (FailsAtSome (records_left R.remaining self)) }
    {
        let mut texts = Vec::new(self.alloc);
        for item in self {
            let text = item?;
            if texts.push(text).is_err() {
                return Err(WireError::Reserve(ReserveError));
            }
        }
        Ok(texts)
    }
}

impl<R: BufRead + Drop> Iterator for Records<R> {
    type Item = Result<CompactString, WireError>;

    ghost next_gives = { GivesRecord R.remaining };

    ghost remaining = { λ s. calls_to_come s };

    /// Reads the next string, or returns `None` at the end.
    #[tactic(auto, using(crate::proofs::WireRecordLemmas::record_facts))]
    fn next(&mut self) -> Option<Result<CompactString, WireError>> {
        if self.calls_left == 0 {
            return None;
        }
        self.calls_left -= 1;
        if self.calls_left == 0 {
            return Some(Err(WireError::Io(io::Error::from(ErrorKind::TimedOut))));
        }
        next_record(self.alloc, &mut self.reader)
    }
}

/// Reads the next string, or returns `None` at the end.
#[tactic(auto, using(crate::proofs::WireRecordLemmas::record_facts))]
fn next_record<R: BufRead>(
    alloc: Global,
    reader: &mut R,
) -> Option<Result<CompactString, WireError>>
    ensures { GivesNext (R.remaining reader.old) result (R.remaining reader.new) }
{
    let bytes = match reader.fill_buf() {
        Ok(bytes) => bytes,
        Err(error) => return Some(Err(WireError::Io(error))),
    };
    if bytes.is_empty() {
        return None;
    }
    match valid_prefix(alloc, bytes) {
        Ok(Some(text)) => {
            reader.consume(HEAD + text.len());
            Some(Ok(text))
        }
        Ok(None) => Some(read_wire(alloc, reader)),
        Err(error) => {
            reader.consume(HEAD);
            Some(Err(WireError::Reserve(error)))
        }
    }
}

/// Returns the string whose form is a prefix of `bytes`, or `None` if there is no whole and valid one. Fails if
/// allocation does, past 24 bytes.
#[inline]
fn valid_prefix(alloc: Global, bytes: &[u8]) -> Result<Option<CompactString>, ReserveError>
    ensures shown { IfOk result (λ found.
        MatchOption found (BeginsWithNoForm bytes.now) (BeginsWithForm bytes.now)) }
    ensures allocates { OnErr result
        ((4 ≤ length bytes.now) × (INLINE_CAPACITY < claimed_len bytes.now)) }
{
    let Some((head, rest)) = bytes.split_first_chunk::<HEAD>() else {
        return Ok(None);
    };
    let len = number_of(*head) as usize;
    if len > rest.len() || !is_utf8(&rest[..len]) {
        return Ok(None);
    }
    let text = with_exact_capacity(alloc, &rest[..len])?;
    Ok(Some(text))
}

/// Copies valid UTF-8: inline up to 24 bytes, else on the heap with the exact capacity. Fails if allocation does.
#[inline]
#[tactic(auto, using(crate::proofs::WireLemmas::read_text_facts))]
fn with_exact_capacity(alloc: Global, bytes: &[u8]) -> Result<CompactString, ReserveError>
    requires { IsUtf8 bytes.now }
    ensures bytes { IfOk result (λ v. utf8 v.text ≡ bytes.now) }
    ensures text { IfOk result (λ v. IsText v.text) }
    ensures place { IfOk result IsPlacedAsRead }
    ensures allocates { OnErr result (INLINE_CAPACITY < length bytes.now) }
{
    if bytes.len() <= INLINE_CAPACITY {
        return CompactString::from_utf8_unchecked(alloc, bytes);
    }
    long_with_exact_capacity(alloc, bytes)
}

/// `with_exact_capacity` of more than 24 bytes. Not inlined, so that the copy is one `memmove`.
#[inline(never)]
#[tactic(auto, using(crate::proofs::WireLemmas::read_text_facts))]
fn long_with_exact_capacity(alloc: Global, bytes: &[u8]) -> Result<CompactString, ReserveError>
    requires utf8 { IsUtf8 bytes.now }
    requires long { INLINE_CAPACITY < length bytes.now }
    ensures bytes { IfOk result (λ v. utf8 v.text ≡ bytes.now) }
    ensures text { IfOk result (λ v. IsText v.text) }
    ensures place { IfOk result IsPlacedAsRead }
{
    let copy = vec::copied(alloc, bytes, bytes.len())?;
    let text = unsafe { String::from_utf8_unchecked(copy) };
    Ok(CompactString::from(text))
}
