//! Editing byte slices by whole-word loads and stores.
#![tactic(auto, using(crate::proofs::TextFacts::text_facts, crate::proofs::Facts::slices_facts))]

ghost use Rattle.std.specs.Prelude.{◌≡◌, ◌+◌, ◌-◌, ◌≤◌, [], ◌++◌, length, take, drop, None, IfSome, IsSome, ◌↔◌, replicate};
ghost use Rattle.std.specs.Char.{len_utf8, encode_utf8};
ghost use Rattle.compact_text.specs.Text.{room_for_char};
ghost use Rattle.std.specs.List.{replace_range};
ghost use lib.Seq.{paste};

mod ascii_case;
mod moves;
mod retain_chars;
mod simd;

use crate::str_parts::encoded;
pub use ascii_case::{Case, convert_case};
use moves::{move_bytes, move_short};
pub use retain_chars::retain;
use simd::{load, store};

/// The most bytes that are copied or moved without a loop or a call.
pub const SHORT: usize = 32;

/// Replaces the bytes from `start` to `end` of the first `len` bytes with `source`. Moves the tail once.
#[inline]
pub fn splice(slice: &mut [u8], len: usize, start: usize, end: usize, source: &[u8])
    requires order { start ≤ end }
    requires within { end ≤ len }
    requires long_enough { len ≤ length slice.old }
    requires room { len + length source.now ≤ length slice.old + (end - start) }
    ensures { take (len - (end - start) + length source.now) slice.new
        ≡ replace_range (take len slice.old) start end source.now }
{
    move_bytes(slice, end, start + source.len(), len - end);
    write(slice, start, source);
}

/// `splice` of at most 32 bytes by at most 32, without a loop or a call.
#[inline(always)]
pub fn splice_short(slice: &mut [u8], len: usize, start: usize, end: usize, source: &[u8])
    requires order { start ≤ end }
    requires within { end ≤ len }
    requires long_enough { len ≤ length slice.old }
    requires short { len ≤ SHORT }
    requires short_source { length source.now ≤ SHORT }
    requires room { len + length source.now ≤ length slice.old + (end - start) }
    ensures { take (len - (end - start) + length source.now) slice.new
        ≡ replace_range (take len slice.old) start end source.now }
{
    move_short(slice, end, start + source.len(), len - end);
    write_short(slice, start, source);
}

/// Removes the bytes from `start` to `end` from the first `len` bytes. Moves the tail once.
#[inline(always)]
pub fn remove_range(slice: &mut [u8], len: usize, start: usize, end: usize)
    requires order { start ≤ end }
    requires within { end ≤ len }
    requires long_enough { len ≤ length slice.old }
    ensures { take (len - (end - start)) slice.new
        ≡ replace_range (take len slice.old) start end [] }
{
    move_bytes(slice, end, start, len - end);
}

/// `remove_range` of at most 32 bytes, without a loop or a call.
#[inline(always)]
pub fn remove_range_short(slice: &mut [u8], len: usize, start: usize, end: usize)
    requires order { start ≤ end }
    requires within { end ≤ len }
    requires long_enough { len ≤ length slice.old }
    requires short { len ≤ SHORT }
    ensures { take (len - (end - start)) slice.new
        ≡ replace_range (take len slice.old) start end [] }
{
    move_short(slice, end, start, len - end);
}

/// Writes a character at `at` if four bytes are free there, or one if it is ASCII. Returns its end, or `None` if they are
/// not free.
#[inline(always)]
pub fn try_write_char(slice: &mut [u8], at: usize, character: char) -> Option<usize>
    requires { at ≤ length slice.old }
    ensures written { IfSome result
        (λ end. take end slice.new ≡ take at slice.old ++ encode_utf8 character) }
    ensures end { IfSome result (λ end. end ≡ at + len_utf8 character) }
    ensures within { IfSome result (λ end. end ≤ length slice.old) }
    ensures fits { IsSome result ↔ (at + room_for_char character ≤ length slice.old) }
    ensures full { result ≡ None → slice.new ≡ slice.old }
{
    if at == slice.len() {
        return None;
    }
    if character.is_ascii() {
        slice[at] = character as u8;
        return Some(at + 1);
    }
    if slice.len() - at < 4 {
        return None;
    }
    let (bytes, len) = encoded(character);
    set_array::<4>(&mut slice[at..at + 4], bytes);
    Some(at + len)
}

/// Returns the `N` bytes of `source` at `at`.
#[inline(always)]
pub fn array_at<const N: usize>(source: &[u8], at: usize) -> [u8; N]
    requires { at + N ≤ length source.now }
    ensures { result ≡ take N (drop at source.now) }
{
    match source[at..].first_chunk::<N>() {
        Some(chunk) => *chunk,
        None => unreachable!(),
    }
}

/// The most bytes that are copied through an array. LLVM removes the array in the small functions around it; the kit's own
/// compiler zeroes it for each copy. Loops by blocks take this as a parameter, which keeps the number out of their proofs.
pub const BLOCK: usize = 16384;

/// Copies `source` to `target`, of the same length. A plain loop, which the compiler makes one copy if one of the two is a
/// local array, as in `vec::with_block`.
#[inline(always)]
#[tactic(auto, using(crate::proofs::Facts::copy_facts))]
pub fn copy_each(target: &mut [u8], source: &[u8])
    requires { length source.now ≡ length target.old }
    ensures { target.new ≡ source.now }
{
    for i in 0..source.len() {
        target[i] = source[i];
    }
}

/// Replaces the `N` bytes of a slice.
#[inline(always)]
fn set_array<const N: usize>(slice: &mut [u8], array: [u8; N])
    requires { length slice.old ≡ N }
    ensures { slice.new ≡ array.entry }
{
    match slice.first_chunk_mut::<N>() {
        Some(chunk) => *chunk = array,
        None => unreachable!(),
    }
}

/// Writes `source` at `at`.
#[inline(always)]
pub fn write(slice: &mut [u8], at: usize, source: &[u8])
    requires { at + length source.now ≤ length slice.old }
    ensures written { slice.new ≡ paste slice.old at source.now (length source.now) }
    ensures after { take (at + length source.now) slice.new ≡ take at slice.old ++ source.now }
{
    if source.len() > SHORT {
        write_long(slice, at, source);
    } else {
        write_short(slice, at, source);
    }
}

/// Writes `source`, of at most 32 bytes, at `at`: its first and its last 16, 8, 4, 2 or 1 bytes, without a loop.
#[inline(always)]
pub fn write_short(slice: &mut [u8], at: usize, source: &[u8])
    requires short { length source.now ≤ SHORT }
    requires target { at + length source.now ≤ length slice.old }
    ensures written { slice.new ≡ paste slice.old at source.now (length source.now) }
    ensures after { take (at + length source.now) slice.new ≡ take at slice.old ++ source.now }
{
    let count = source.len();
    if count > 16 {
        write_overlapping::<16>(slice, at, source);
    } else if count >= 8 {
        write_overlapping::<8>(slice, at, source);
    } else if count >= 4 {
        write_overlapping::<4>(slice, at, source);
    } else if count >= 2 {
        write_overlapping::<2>(slice, at, source);
    } else if count == 1 {
        write_overlapping::<1>(slice, at, source);
    }
}

/// Writes `source` at `at` by one copy: a store or two where the compiler knows the length.
#[inline(always)]
pub fn write_whole(slice: &mut [u8], at: usize, source: &[u8])
    requires { at + length source.now ≤ length slice.old }
    ensures written { slice.new ≡ paste slice.old at source.now (length source.now) }
    ensures after { take (at + length source.now) slice.new ≡ take at slice.old ++ source.now }
{
    slice[at..at + source.len()].copy_from_slice(source);
}

/// `write_whole`, not inlined, so that `write` can be.
#[inline(never)]
fn write_long(slice: &mut [u8], at: usize, source: &[u8])
    requires { at + length source.now ≤ length slice.old }
    ensures { slice.new ≡ paste slice.old at source.now (length source.now) }
{
    write_whole(slice, at, source);
}

/// Writes `source`, which has `N` to `2 * N` bytes, as its first `N` and its last `N`.
#[inline(always)]
fn write_overlapping<const N: usize>(slice: &mut [u8], at: usize, source: &[u8])
    requires least { N ≤ length source.now }
    requires most { length source.now ≤ N + N }
    requires target { at + length source.now ≤ length slice.old }
    ensures { slice.new ≡ paste slice.old at source.now (length source.now) }
{
    let count = source.len();
    let first = load::<N>(source, 0);
    let last = load::<N>(source, count - N);
    store(slice, at, first);
    store(slice, at + (count - N), last);
}

/// Fills the slice with zeros.
#[inline]
pub fn fill_zero(slice: &mut [u8])
    ensures { slice.new ≡ replicate (length slice.old) 0 }
{
    slice.fill(0);
}
