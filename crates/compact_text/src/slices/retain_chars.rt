//! Retaining characters of a text in a slice.
#![tactic(auto, using(crate::proofs::TextFacts::text_facts, crate::proofs::Facts::retain_chars_facts))]

ghost use Rattle.std.specs.Prelude.{◌≡◌, ◌+◌, ◌≤◌, ◌<◌, ◌++◌, length, take, drop, if◌then◌else◌, IfSome, IsSome};
ghost use Rattle.std.specs.Char.{len_utf8, encode_utf8, IsScalar};
ghost use Rattle.std.specs.Str.{IsUtf8};
ghost use Rattle.compact_text.specs.Text.{text_of};
ghost use Rattle.compact_text.specs.Retain.{RetainsCharsTo};

use super::moves::move_overlapping;

/// Moves to the front those characters of the first `len` bytes for which `keep` returns `true`; calls it once for
/// each, in order. Returns their length in bytes.
#[inline(always)]
pub fn retain<F: FnMut(char) -> bool>(slice: &mut [u8], len: usize, keep: &mut F) -> usize
    requires long_enough { len ≤ length slice.old }
    requires utf8 { IsUtf8 (take len slice.old) }
    requires callable { F.IsAlwaysCallable keep.old }
    ensures text { RetainsCharsTo F.FnMut keep.old (text_of (take len slice.old))
        (text_of (take result slice.new)) keep.new }
    ensures callable { F.IsAlwaysCallable keep.new }
    ensures utf8 { IsUtf8 (take result slice.new) }
    ensures within { result ≤ len }
{
    retain_all(&mut slice[..len], keep)
}

/// `retain` of a whole slice, in one pass.
#[inline(always)]
fn retain_all<F: FnMut(char) -> bool>(slice: &mut [u8], keep: &mut F) -> usize
    requires utf8 { IsUtf8 slice.old }
    requires callable { F.IsAlwaysCallable keep.old }
    ensures text { RetainsCharsTo F.FnMut keep.old (text_of slice.old)
        (text_of (take result slice.new)) keep.new }
    ensures callable { F.IsAlwaysCallable keep.new }
    ensures utf8 { IsUtf8 (take result slice.new) }
    ensures within { result ≤ length slice.old }
{
    let mut read = 0;
    let mut kept = 0;
    while read < slice.len() {
        // Writes after `keep` returns, so that the next read does not wait for its result.
        while let Some(character) = ascii_at(slice, read) {
            let is_kept = keep(character);
            kept = move_if(slice, read, kept, 1, is_kept);
            read += 1;
        }
        if read < slice.len() {
            let (character, width) = char_from(slice, read);
            let is_kept = keep(character);
            kept = move_if(slice, read, kept, width, is_kept);
            read += width;
        }
    }
    kept
}

/// Returns the character at `at`, a boundary of a text, if it is ASCII. Otherwise, and at the end, returns `None`.
#[inline(always)]
fn ascii_at(slice: &[u8], at: usize) -> Option<char>
    requires utf8 { IsUtf8 (drop at slice.now) }
    ensures encoded { IfSome result
        (λ c. drop at slice.now ≡ encode_utf8 c ++ drop (at + 1) slice.now) }
    ensures within { IsSome result → at + 1 ≤ length slice.now }
    ensures rest { IsSome result → IsUtf8 (drop (at + 1) slice.now) }
    ensures scalar { IfSome result (λ c. IsScalar c) }
{
    if at >= slice.len() {
        return None;
    }
    let byte = slice[at];
    if byte < 128 {
        Some(char::from(byte))
    } else {
        None
    }
}

/// Returns the character that begins at `at`, and its length in bytes.
#[inline(always)]
fn char_from(slice: &[u8], at: usize) -> (char, usize)
    requires utf8 { IsUtf8 (drop at slice.now) }
    requires inside { at < length slice.now }
    ensures encoded { drop at slice.now ≡ encode_utf8 result.0 ++ drop (at + result.1) slice.now }
    ensures width { result.1 ≡ len_utf8 result.0 }
    ensures least { 1 ≤ result.1 }
    ensures most { result.1 ≤ 4 }
    ensures within { at + result.1 ≤ length slice.now }
    ensures rest { IsUtf8 (drop (at + result.1) slice.now) }
    ensures scalar { IsScalar result.0 }
{
    let byte = slice[at];
    if byte < 128 {
        return (char::from(byte), 1);
    }
    let mut chars = unsafe { std::str::from_utf8_unchecked(&slice[at..]) }.chars();
    match chars.next() {
        Some(character) => (character, slice.len() - at - chars.as_str().len()),
        None => unreachable!(),
    }
}

/// Moves `width` bytes from `from` down to `to` if they are kept, and returns where the next ones go.
#[inline(always)]
fn move_if(slice: &mut [u8], from: usize, to: usize, width: usize, is_kept: bool) -> usize
    requires order { to ≤ from }
    requires source { from + width ≤ length slice.old }
    requires least { 1 ≤ width }
    requires most { width ≤ 4 }
    ensures front { take result slice.new
        ≡ (if is_kept then take to slice.old ++ take width (drop from slice.old) else take to slice.old) }
    ensures after { drop (to + width) slice.new ≡ drop (to + width) slice.old }
    ensures within { result ≤ to + width }
{
    if !is_kept {
        return to;
    }
    if width == 1 {
        slice[to] = slice[from];
        return to + 1;
    }
    move_overlapping::<2>(slice, from, to, width);
    to + width
}
