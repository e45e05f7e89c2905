//! Bytes read as UTF-8 (Unicode Standard, 3.9).
#![tactic(auto, using(crate::proofs::Facts::utf8_facts))]

ghost use Rattle.std.specs.Prelude.{◌≡◌, ◌↔◌, ◌+◌, ◌<◌, ◌≤◌, ◌++◌, take, length, false, IsTrue, IsUtf8};
ghost use Rattle.std.specs.Int.{is_in_range};
ghost use Rattle.std.specs.Str.{IsAscii};
ghost use Rattle.compact_text.specs.Text.{text_of};
ghost use Rattle.compact_codec.specs.Utf8Table.{TableIsTheEncodings};
ghost use Rattle.compact_codec.specs.InvalidSequence.{IsUtf8Error, Validates, Utf8ErrorIsUnique};
ghost use Rattle.compact_codec.specs.Utf8Text.{utf8_lossy_text, replacement_text, BeginsWithChunk, BytesEncodeOneText, Utf8LossyTextIsUnique, Utf8LossyTextOfText};

use std::simd::prelude::*;

/// The position of an error, and the length of the invalid sequence there.
#[derive(Clone, Copy, Debug, PartialEq, Eq)]
pub struct Utf8Error {
    /// The length in bytes of the longest valid prefix.
    pub valid_up_to: usize,
    /// The length in bytes of the invalid sequence after it, from 1 to 3. `None` if the input ends inside a sequence
    /// that more bytes could complete.
    pub error_len: Option<usize>,
}

/// The block size. From this length on, whole blocks are validated faster than bytes in order.
const BLOCK_LEN: usize = 64;

/// The most bytes that are validated at first, so that an error near the start costs no more.
const FIRST_WINDOW_LEN: usize = 512;

/// The most bytes that are validated at a time.
const MAX_WINDOW_LEN: usize = 8192;

/// Returns the bytes as a `&str`.
///
/// # Errors
///
/// Returns [`Utf8Error`] if they are not valid UTF-8.
///
/// # Examples
///
/// `[0x61, 0xE2, 0x82]` has its error after 1 byte, with an open end: one byte more could make it `a€`.
/// `[0xE1, 0x80, 0x41]` has its error at its start, with an invalid sequence of 2 bytes.
#[inline]
pub fn validate(bytes: &[u8]) -> Result<&str, Utf8Error>
    ensures { Validates bytes.now result }
{
    if bytes.len() < BLOCK_LEN {
        return validate_short(bytes);
    }
    let letters = ascii_prefix_len(bytes);
    if letters < bytes.len() {
        return validate_long(bytes, letters);
    }
    Ok(unsafe { std::str::from_utf8_unchecked(bytes) })
}

/// Returns `true` if the bytes are valid UTF-8. Faster than `validate` for many short ASCII texts, since it calls
/// nothing for these.
///
/// # Examples
///
/// `[0xE2, 0x82, 0xAC]`, which encodes `€`, is valid; `[0xE2, 0x82]` is not.
#[inline]
pub fn is_utf8(bytes: &[u8]) -> bool
    ensures { IsTrue result ↔ IsUtf8 bytes.now }
{
    if bytes.len() < BLOCK_LEN && is_short_ascii(bytes) {
        return true;
    }
    validate(bytes).is_ok()
}

/// `validate` of fewer bytes. Always inlined, so that a short ASCII text takes no call.
#[inline(always)]
fn validate_short(bytes: &[u8]) -> Result<&str, Utf8Error>
    requires { length bytes.now < 64 }
    ensures { Validates bytes.now result }
{
    if !is_short_ascii(bytes) {
        return validate_in_order(bytes);
    }
    Ok(unsafe { std::str::from_utf8_unchecked(bytes) })
}

/// Returns `true` if the bytes are found to be ASCII; `false` for fewer than 4 bytes.
#[inline(always)]
fn is_short_ascii(bytes: &[u8]) -> bool
    requires { length bytes.now < 64 }
    ensures { IsTrue result → IsUtf8 bytes.now }
{
    if bytes.len() >= 32 {
        return ends_are_ascii(bytes, 32);
    }
    if bytes.len() >= 16 {
        return ends_are_ascii(bytes, 16);
    }
    if bytes.len() >= 8 {
        return ends_are_ascii(bytes, 8);
    }
    if bytes.len() >= 4 {
        return ends_are_ascii(bytes, 4);
    }
    false
}

/// Returns `true` if the first `len` and the last `len` bytes, which cover the slice, are ASCII.
#[inline(always)]
fn ends_are_ascii(bytes: &[u8], len: usize) -> bool
    requires within { len ≤ length bytes.now }
    requires short { length bytes.now ≤ len + len }
    ensures { IsTrue result → IsUtf8 bytes.now }
{
    is_ascii_slice(&bytes[..len]) && is_ascii_slice(&bytes[bytes.len() - len..])
}

/// Returns `true` if all bytes are ASCII. Never exits early, so that the loop vectorizes.
#[inline(always)]
fn is_ascii_slice(bytes: &[u8]) -> bool
    ensures { IsTrue result → IsAscii bytes.now }
{
    let mut most = 0;
    for &byte in bytes {
        most = most.max(byte);
    }
    most < 0x80
}

/// Returns the length of an ASCII prefix, in whole blocks. The last block ends with the bytes, and may overlap the one
/// before.
fn ascii_prefix_len(bytes: &[u8]) -> usize
    requires { 64 ≤ length bytes.now }
    ensures within { result ≤ length bytes.now }
    ensures text { IsUtf8 (take result bytes.now) }
{
    let last = bytes.len() - BLOCK_LEN;
    let mut at = 0;
    while at < last {
        if !is_ascii_block(u8x64::from_slice(&bytes[at..])) {
            return at;
        }
        at += BLOCK_LEN;
    }
    if is_ascii_block(u8x64::from_slice(&bytes[last..])) {
        bytes.len()
    } else {
        last
    }
}

/// Returns `true` if the block is ASCII.
#[inline(always)]
fn is_ascii_block(block: u8x64) -> bool
    ensures { IsTrue result → IsAscii block }
{
    block.simd_ge(u8x64::splat(0x80)).to_bitmask() == 0
}

/// `validate`, given that the bytes before `at` are valid.
fn validate_long(bytes: &[u8], at: usize) -> Result<&str, Utf8Error>
    requires within { at ≤ length bytes.now }
    requires text { IsUtf8 (take at bytes.now) }
    ensures { Validates bytes.now result }
{
    let at = valid_len_in_windows(bytes, at, FIRST_WINDOW_LEN);
    if at < bytes.len() {
        return validate_by_guess(bytes, at);
    }
    Ok(unsafe { std::str::from_utf8_unchecked(bytes) })
}

/// Returns the length of a valid prefix, in whole windows, given that the bytes before `from` are valid. The first
/// window has `least` bytes, and each further one twice the one before, up to `MAX_WINDOW_LEN`.
fn valid_len_in_windows(bytes: &[u8], from: usize, least: usize) -> usize
    requires within { from ≤ length bytes.now }
    requires text { IsUtf8 (take from bytes.now) }
    requires wide { (64 ≤ least) × (least ≤ 8192) }
    ensures within { result ≤ length bytes.now }
    ensures text { IsUtf8 (take result bytes.now) }
{
    let mut at = from;
    let mut width = least;
    while bytes.len() - at >= BLOCK_LEN {
        let end = window_end(bytes, at, width);
        let window = &bytes[at..end];
        if !simdutf8::is_utf8(window) {
            break;
        }
        at = end;
        width = (2 * width).min(MAX_WINDOW_LEN);
    }
    at
}

/// Returns the end of a window of at most `width` bytes from `at` on: the end of the bytes, or before a byte that can
/// begin a character.
fn window_end(bytes: &[u8], at: usize, width: usize) -> usize
    requires within { at + 64 ≤ length bytes.now }
    requires wide { (64 ≤ width) × (width ≤ 8192) }
    ensures within { result ≤ length bytes.now }
    ensures some { at < result }
{
    if bytes.len() - at <= width {
        return bytes.len();
    }
    let end = char_start_before(bytes, at + width);
    char_start_before(bytes, char_start_before(bytes, end))
}

/// Steps back over a continuation byte.
fn char_start_before(bytes: &[u8], at: usize) -> usize
    requires { (0 < at) × (at < length bytes.now) }
    ensures { (result ≤ at) × (at ≤ result + 1) }
{
    if bytes[at] & 0xC0 == 0x80 { at - 1 } else { at }
}

/// `validate`, given that an error is likely to come soon, or even at once.
#[inline]
fn validate_to_error(bytes: &[u8]) -> Result<&str, Utf8Error>
    ensures { Validates bytes.now result }
{
    if bytes.len() < BLOCK_LEN || begins_no_character(bytes[0]) {
        return validate_first(bytes);
    }
    validate_by_guess(bytes, ascii_len(bytes))
}

/// `validate`, given that the bytes before `from` are valid, and that an error is likely to come soon. Validates the next
/// block up to where an error is likely. If it seems to have none, validates windows, each twice as wide as the one before,
/// and all in order from the first invalid one on: only a few times the bytes before the error.
fn validate_by_guess(bytes: &[u8], from: usize) -> Result<&str, Utf8Error>
    requires within { from ≤ length bytes.now }
    requires text { IsUtf8 (take from bytes.now) }
    ensures { Validates bytes.now result }
{
    if bytes.len() - from < BLOCK_LEN || begins_no_character(bytes[from]) {
        return validate_from(bytes, from);
    }
    let (len, is_whole) = likely_valid_len(&bytes[from..from + BLOCK_LEN]);
    let at = valid_len_by_guess(bytes, from, from + len);
    if is_whole && from < at {
        return validate_from(bytes, valid_len_in_windows(bytes, at, BLOCK_LEN));
    }
    validate_from(bytes, at)
}

/// Returns `true` for a continuation byte, and for a byte that is in no text.
#[inline]
fn begins_no_character(byte: u8) -> bool
    ensures { IsTrue result ↔ ((128 ≤ byte) × (is_in_range 0xC2 0xF4 byte ≡ false)) }
{
    byte >= 0x80 && (byte < 0xC2 || byte > 0xF4)
}

/// Returns the length of the ASCII prefix of the first block.
#[inline]
fn ascii_len(bytes: &[u8]) -> usize
    requires { 64 ≤ length bytes.now }
    ensures few { result ≤ 64 }
    ensures text { IsUtf8 (take result bytes.now) }
{
    let others = u8x64::from_slice(bytes).simd_ge(u8x64::splat(0x80));
    others.to_bitmask().trailing_zeros() as usize
}

/// Returns `end` if the bytes from `from` to there are valid, else `from`, given that the bytes before `from` are valid.
fn valid_len_by_guess(bytes: &[u8], from: usize, end: usize) -> usize
    requires order { from ≤ end }
    requires within { end ≤ length bytes.now }
    requires text { IsUtf8 (take from bytes.now) }
    ensures within { result ≤ length bytes.now }
    ensures text { IsUtf8 (take result bytes.now) }
{
    let guessed = &bytes[from..end];
    if !guessed.is_empty() && simdutf8::is_utf8(guessed) {
        end
    } else {
        from
    }
}

/// Guesses the length of a valid prefix, up to the last character, and whether the block is valid as far as it goes: compares
/// continuation bytes with those that the lead bytes call for, all in one step. A wrong guess costs only time.
fn likely_valid_len(bytes: &[u8]) -> (usize, bool)
    requires { length bytes.now ≡ 64 }
    ensures { result.0 ≤ 64 }
{
    let block = u8x64::from_slice(bytes);
    let high = block.simd_ge(u8x64::splat(0x80)).to_bitmask();
    let leads = block.simd_ge(u8x64::splat(0xC0)).to_bitmask();
    let wide = block.simd_ge(u8x64::splat(0xE0)).to_bitmask();
    let widest = block.simd_ge(u8x64::splat(0xF0)).to_bitmask();
    let due = leads.wrapping_shl(1) | wide.wrapping_shl(2) | widest.wrapping_shl(3);
    let end = (high ^ leads ^ due).trailing_zeros() as usize;
    let is_whole = end == BLOCK_LEN;
    if end == 0 || !is_whole && bytes[end] & 0xC0 == 0x80 {
        return (end, false);
    }
    let lead = lead_at(bytes, lead_at(bytes, end - 1));
    (lead_at(bytes, lead), is_whole)
}

/// Steps back one byte if there is one and no character can begin at this one.
fn lead_at(bytes: &[u8], at: usize) -> usize
    requires { at < length bytes.now }
    ensures { result ≤ at }
{
    if at > 0 && bytes[at] & 0xC0 == 0x80 {
        at - 1
    } else {
        at
    }
}

/// `validate`, given that the bytes before `at` are valid.
fn validate_from(bytes: &[u8], at: usize) -> Result<&str, Utf8Error>
    requires within { at ≤ length bytes.now }
    requires text { IsUtf8 (take at bytes.now) }
    ensures { Validates bytes.now result }
{
    match validate_first(&bytes[at..]) {
        Ok(_) => Ok(unsafe { std::str::from_utf8_unchecked(bytes) }),
        Err(error) => Err(Utf8Error {
            valid_up_to: at + error.valid_up_to,
            error_len: error.error_len,
        }),
    }
}

/// The same as `validate_in_order`, but finds an error in the first byte without calling `from_utf8`.
#[inline]
fn validate_first(bytes: &[u8]) -> Result<&str, Utf8Error>
    ensures { Validates bytes.now result }
{
    if !bytes.is_empty() && begins_no_character(bytes[0]) {
        return Err(Utf8Error {
            valid_up_to: 0,
            error_len: Some(1),
        });
    }
    validate_in_order(bytes)
}

/// `validate`, from the first byte to the error and no further.
fn validate_in_order(bytes: &[u8]) -> Result<&str, Utf8Error>
    ensures { Validates bytes.now result }
{
    match std::str::from_utf8(bytes) {
        Ok(text) => Ok(text),
        Err(error) => Err(Utf8Error {
            valid_up_to: error.valid_up_to(),
            error_len: error.error_len(),
        }),
    }
}

/// A valid prefix, the invalid sequence after it, and the remaining bytes.
#[derive(Clone, Copy, Debug, PartialEq, Eq)]
pub struct Utf8Chunk<'a> {
    /// The longest valid prefix.
    pub valid: &'a str,
    /// The invalid sequence after it, replaced by one U+FFFD; empty only if nothing follows the prefix.
    pub invalid: &'a [u8],
    /// The bytes after both.
    pub rest: &'a [u8],
}

/// Returns the first chunk of bytes whose error is known. Does not validate again: `error` must be that of `validate`.
///
/// # Examples
///
/// `[0x61, 0xC0, 0x80]` has its error after 1 byte, with an invalid sequence of 1 byte: the chunk is `a`, the invalid
/// byte C0 and the rest 80.
#[inline]
pub fn chunk_at(bytes: &[u8], error: Utf8Error) -> Utf8Chunk<'_>
    requires { IsUtf8Error bytes.now error.valid_up_to error.error_len }
    ensures chunk { BeginsWithChunk bytes.now result.valid.now result.invalid.now result.rest.now }
    ensures lossy { utf8_lossy_text bytes.now
        ≡ text_of result.valid.now
        ++ (replacement_text result.invalid.now ++ utf8_lossy_text result.rest.now) }
    ensures len { length result.valid.now + (length result.invalid.now + length result.rest.now)
        ≡ length bytes.now }
    ensures invalid { 0 < length result.invalid.now }
{
    let (prefix, after) = bytes.split_at(error.valid_up_to);
    let invalid_len = error.error_len.unwrap_or(after.len());
    let (invalid, rest) = after.split_at(invalid_len);
    Utf8Chunk {
        valid: unsafe { std::str::from_utf8_unchecked(prefix) },
        invalid,
        rest,
    }
}

/// Returns the first chunk, which is empty if `bytes` is.
///
/// Validates only a few times the bytes before the error, so that a decoder can call it after each invalid sequence.
/// For mostly valid bytes, `validate` and `chunk_at` are faster.
///
/// # Examples
///
/// `[0x61, 0xC0, 0x80]` is `a`, the invalid byte C0 and the rest 80, whose chunk has no valid byte and the invalid byte
/// 80: the lossy text is `a` and two U+FFFD.
#[inline]
pub fn first_chunk(bytes: &[u8]) -> Utf8Chunk<'_>
    ensures chunk { BeginsWithChunk bytes.now result.valid.now result.invalid.now result.rest.now }
    ensures lossy { utf8_lossy_text bytes.now
        ≡ text_of result.valid.now
        ++ (replacement_text result.invalid.now ++ utf8_lossy_text result.rest.now) }
    ensures len { length result.valid.now + (length result.invalid.now + length result.rest.now)
        ≡ length bytes.now }
    ensures whole { length result.invalid.now ≡ 0 → length result.rest.now ≡ 0 }
    ensures shorter { 0 < length bytes.now → length result.rest.now < length bytes.now }
{
    match validate_to_error(bytes) {
        Ok(valid) => Utf8Chunk {
            valid,
            invalid: &[],
            rest: &[],
        },
        Err(error) => chunk_at(bytes, error),
    }
}

/// A law: the rows of the Standard's table are the encodings of the characters, and nothing else. Each encoding is in
/// one row.
pub fn well_formed_sequences_are_the_encodings()
    ensures { TableIsTheEncodings }
{}

/// A law: bytes encode at most one text.
pub fn bytes_encode_one_text()
    ensures { BytesEncodeOneText }
{}

/// A law: invalid bytes have exactly one error, with the position and the length that std specifies.
pub fn bytes_have_one_error()
    ensures { Utf8ErrorIsUnique }
{}

/// A law: bytes have exactly one lossy text, std's.
pub fn bytes_have_one_lossy_text()
    ensures { Utf8LossyTextIsUnique }
{}

/// A law: the lossy text of a text's bytes is the text.
pub fn a_text_is_its_own_lossy_text()
    ensures { Utf8LossyTextOfText }
{}
