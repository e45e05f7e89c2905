//! Decoding UTF-8 from a `Buf`.
ghost use Rattle.std.specs.Prelude.{◌≡◌, ◌<◌, ◌≤◌, [], length, IfOk, IfErr, OnOk, OnErr, IsOk};
ghost use Rattle.std.specs.Str.{IsUtf8};
ghost use Rattle.compact_str.specs.Words.{INLINE_CAPACITY, text_of};
ghost use Rattle.compact_codec.specs.Utf8Text.{BytesEncode};
ghost use Rattle.compact_str.specs.Room.{IsPlacedBySize};
ghost use Rattle.compact_str.specs.Decoding.{IsSuffixOf, IsUtf8BufRefusal};

use crate::decode::error::FromUtf8Error;
use crate::error::ReserveError;
use crate::string::{CompactString, PolicyString};
use bytes::Buf;
use compact_codec::utf8;
use compact_repr::{INLINE_CAPACITY, Standard};
use std::alloc::Global;

impl PolicyString<Standard> {
    /// Converts all remaining bytes of `buf` to a string, in any number of chunks. The result is inline up to 24
    /// bytes, else on the heap. Consumes all bytes, and then validates them.
    ///
    /// # Errors
    ///
    /// - `Utf8` if the bytes are not valid UTF-8, with the position. They have been consumed.
    /// - `Reserve` if allocation fails, which is never up to 24 bytes. Some bytes may have been consumed, and none
    ///   validated.
    ///
    /// # Examples
    ///
    /// ```
    /// let mut buf = b"caf\xC3\xA9".as_slice();
    /// let name = CompactString::from_utf8_buf(alloc, &mut buf)?;
    /// assert_eq!(rt; name.as_str(), "café");
    /// assert!(rt; !buf.has_remaining());
    /// ```
    #[tactic(auto, using(crate::proofs::DecodedValues::buf_facts))]
    pub fn from_utf8_buf<B: Buf>(alloc: Global, buf: &mut B) -> Result<CompactString, FromUtf8Error>
        // Decodes and consumes all bytes: inline up to 24 bytes, else on the heap.
        ensures text { IfOk result (λ v. BytesEncode (B.unread buf.old) v.text) }
        ensures place { IfOk result IsPlacedBySize }
        ensures consumed { OnOk result (B.unread buf.new ≡ []) }
        ensures kept { B.kept buf.new ≡ B.kept buf.old }

        // `Utf8` if invalid, all consumed; `Reserve` only for over 24 bytes, some perhaps consumed.
        ensures succeeds { IsUtf8 (B.unread buf.old) → length (B.unread buf.old) ≤ INLINE_CAPACITY
            → IsOk result }
        ensures cause { IfErr result (IsUtf8BufRefusal (B.unread buf.old) (B.unread buf.new)) }
    {
        if buf.remaining() <= INLINE_CAPACITY {
            let mut buffer = [0; INLINE_CAPACITY];
            return Self::from_utf8(alloc, read_short(buf, &mut buffer));
        }
        let bytes = match read_long(alloc, buf) {
            Ok(bytes) => bytes,
            Err(error) => return Err(FromUtf8Error::Reserve(error)),
        };
        if let Err(error) = utf8::validate(bytes.as_slice()) {
            return Err(FromUtf8Error::Utf8 {
                valid_up_to: error.valid_up_to,
                error_len: error.error_len,
            });
        }
        Ok(Self::from(unsafe { String::from_utf8_unchecked(bytes) }))
    }

    /// Converts all remaining bytes of `buf` to a string without validating them: they must be valid UTF-8. See
    /// [`from_utf8_buf`](Self::from_utf8_buf).
    ///
    /// # Errors
    ///
    /// [`ReserveError`] if allocation fails, which is never up to 24 bytes. Some bytes may have been consumed.
    #[tactic(auto, using(crate::proofs::DecodedValues::buf_facts))]
    pub fn from_utf8_buf_unchecked<B: Buf>(
        alloc: Global,
        buf: &mut B,
    ) -> Result<CompactString, ReserveError>
        requires { IsUtf8 (B.unread buf.old) }
        // Decodes and consumes all bytes: inline up to 24 bytes, else on the heap.
        ensures text { IfOk result (λ v. v.text ≡ text_of (B.unread buf.old)) }
        ensures place { IfOk result IsPlacedBySize }
        ensures consumed { OnOk result (B.unread buf.new ≡ []) }
        ensures kept { B.kept buf.new ≡ B.kept buf.old }

        // Never fails up to 24 bytes. On failure some bytes may have been consumed.
        ensures succeeds { length (B.unread buf.old) ≤ INLINE_CAPACITY → IsOk result }
        ensures allocates { OnErr result (INLINE_CAPACITY < length (B.unread buf.old)) }
        ensures err { OnErr result (IsSuffixOf (B.unread buf.new) (B.unread buf.old)) }
    {
        if buf.remaining() <= INLINE_CAPACITY {
            let mut buffer = [0; INLINE_CAPACITY];
            return Self::from_utf8_unchecked(alloc, read_short(buf, &mut buffer));
        }
        let bytes = read_long(alloc, buf)?;
        Ok(Self::from(unsafe { String::from_utf8_unchecked(bytes) }))
    }
}

/// Reads all of `buf` into `buffer`, and returns the part that it fills.
fn read_short<'a, B: Buf>(buf: &mut B, buffer: &'a mut [u8; INLINE_CAPACITY]) -> &'a [u8]
    requires { length (B.unread buf.old) ≤ INLINE_CAPACITY }
    ensures bytes { result.now ≡ B.unread buf.old }
    ensures consumed { B.unread buf.new ≡ [] }
    ensures kept { B.kept buf.new ≡ B.kept buf.old }
{
    let front = &mut buffer[..buf.remaining()];
    buf.copy_to_slice(front);
    front
}

/// Copies all of `buf`, once. On `Err` some bytes may have been consumed.
fn read_long<B: Buf>(alloc: Global, buf: &mut B) -> Result<Vec<u8>, ReserveError>
    ensures bytes { IfOk result (λ bytes. bytes.items ≡ B.unread buf.old) }
    ensures consumed { OnOk result (B.unread buf.new ≡ []) }
    ensures kept { B.kept buf.new ≡ B.kept buf.old }
    ensures rest { OnErr result (IsSuffixOf (B.unread buf.new) (B.unread buf.old)) }
{
    let mut bytes = Vec::with_capacity(alloc, buf.remaining())?;
    while buf.has_remaining() {
        let piece = buf.chunk();
        let len = piece.len();
        bytes.extend_from_slice(piece)?;
        buf.advance(len);
    }
    Ok(bytes)
}
