//! Appends within a vector's reserved capacity.
//!
//! The functions `with_..` take the vector and return it, for `replace_with`: a vector behind a reference would be written
//! for each byte. Their `()` is the result that `replace_with` passes on.
#![tactic(auto, using(crate::proofs::TextFacts::text_facts, crate::proofs::Facts::vec_facts))]

ghost use Rattle.std.specs.Prelude.{◌≡◌, ◌+◌, ◌-◌, ◌<◌, ◌≤◌, [], ◌∷◌, ◌++◌, length, take, drop, replicate, IsTrue, ◌↔◌, false, IfSome, IfOk, None};
ghost use Rattle.std.specs.Char.{encode_utf8};
ghost use Rattle.std.specs.List.{replace_range};
ghost use Rattle.std.specs.Vec.{vec_len, vec_capacity};
ghost use Rattle.compact_text.specs.Text.{room_for_char};

use crate::slices::{self, BLOCK, SHORT, array_at, copy_each};
use crate::str_parts::encoded;
use core::mem::replace_with;
use std::alloc::{AllocError, Global};

/// The most bytes that are appended without a call of `memmove`, which takes longer to begin.
const MAX_UNROLLED: usize = 256;

/// Appends `source`. A short one is appended inline, without a loop or a call.
#[inline(always)]
pub fn append_slice(bytes: &mut Vec<u8>, source: &[u8])
    requires { vec_len bytes.old + length source.now ≤ vec_capacity bytes.old }
    ensures items { bytes.new.items ≡ bytes.old.items ++ source.now }
    ensures capacity { vec_capacity bytes.new ≡ vec_capacity bytes.old }
{
    if source.len() <= SHORT {
        append_short(bytes, source);
    } else {
        append_long(bytes, source);
    }
}

/// Appends a character if four bytes are free, or one if it is ASCII. Returns whether they were; otherwise changes
/// nothing.
#[inline(always)]
pub fn try_append_char(bytes: &mut Vec<u8>, character: char) -> bool
    ensures fits { IsTrue result ↔ (vec_len bytes.old + room_for_char character ≤ vec_capacity bytes.old) }
    ensures items { IsTrue result → bytes.new.items ≡ bytes.old.items ++ encode_utf8 character }
    ensures capacity { vec_capacity bytes.new ≡ vec_capacity bytes.old }
    ensures full { result ≡ false → bytes.new ≡ bytes.old }
{
    if bytes.len() == bytes.capacity() {
        return false;
    }
    if character.is_ascii() {
        bytes.push_reserved(character as u8);
        return true;
    }
    if bytes.capacity() - bytes.len() < 4 {
        return false;
    }
    replace_with(bytes, encoded(character), with_front);
    true
}

/// Returns the vector with the first `count` of four bytes appended.
#[inline(always)]
fn with_front(vec: Vec<u8>, front: ([u8; 4], usize)) -> (Vec<u8>, ())
    requires most { front.1 ≤ 4 }
    requires room { vec_len vec + 4 ≤ vec_capacity vec }
    ensures items { result.0.items ≡ vec.items ++ take front.1 front.0 }
    ensures capacity { vec_capacity result.0 ≡ vec_capacity vec }
{
    let mut vec = vec;
    let (piece, count) = front;
    let len = vec.len();
    append_array::<4>(&mut vec, piece);
    shorten(&mut vec, len + count);
    (vec, ())
}

/// Appends at most 32 bytes.
#[inline(always)]
fn append_short(bytes: &mut Vec<u8>, source: &[u8])
    requires short { length source.now ≤ SHORT }
    requires room { vec_len bytes.old + length source.now ≤ vec_capacity bytes.old }
    ensures items { bytes.new.items ≡ bytes.old.items ++ source.now }
    ensures capacity { vec_capacity bytes.new ≡ vec_capacity bytes.old }
{
    let count = source.len();
    if count > 16 {
        replace_with(bytes, source, with_ends::<16>);
    } else if count >= 8 {
        replace_with(bytes, source, with_ends::<8>);
    } else if count >= 4 {
        replace_with(bytes, source, with_ends::<4>);
    } else if count >= 2 {
        replace_with(bytes, source, with_ends::<2>);
    } else if count == 1 {
        bytes.push_reserved(source[0]);
    }
}

/// Appends more than 32 bytes. Not inlined, so that a short append needs no stack.
#[inline(never)]
fn append_long(bytes: &mut Vec<u8>, source: &[u8])
    requires long { SHORT < length source.now }
    requires room { vec_len bytes.old + length source.now ≤ vec_capacity bytes.old }
    ensures items { bytes.new.items ≡ bytes.old.items ++ source.now }
    ensures capacity { vec_capacity bytes.new ≡ vec_capacity bytes.old }
{
    if source.len() <= 64 {
        replace_with(bytes, source, with_ends::<32>);
    } else if source.len() <= MAX_UNROLLED {
        append_65_to_256(bytes, source);
    } else if source.len() <= BLOCK {
        append_block(bytes, source);
    } else {
        append_blocks::<BLOCK>(bytes, source);
    }
}

/// Appends 65 to 256 bytes, as both ends.
#[inline(always)]
fn append_65_to_256(bytes: &mut Vec<u8>, source: &[u8])
    requires long { 64 < length source.now }
    requires most { length source.now ≤ MAX_UNROLLED }
    requires room { vec_len bytes.old + length source.now ≤ vec_capacity bytes.old }
    ensures items { bytes.new.items ≡ bytes.old.items ++ source.now }
    ensures capacity { vec_capacity bytes.new ≡ vec_capacity bytes.old }
{
    if source.len() <= 128 {
        replace_with(bytes, source, with_ends::<64>);
    } else {
        replace_with(bytes, source, with_ends::<128>);
    }
}

/// Appends at most a block by one copy.
#[inline(never)]
fn append_block(bytes: &mut Vec<u8>, source: &[u8])
    requires most { length source.now ≤ BLOCK }
    requires room { vec_len bytes.old + length source.now ≤ vec_capacity bytes.old }
    ensures items { bytes.new.items ≡ bytes.old.items ++ source.now }
    ensures len { vec_len bytes.new ≡ vec_len bytes.old + length source.now }
    ensures capacity { vec_capacity bytes.new ≡ vec_capacity bytes.old }
{
    replace_with(bytes, source, with_block);
}

/// Copies `source` into a new vector of `capacity` bytes, at least its length. Always inlined, so that the vector's length
/// and address stay in registers; as `with_block`, for small functions only.
///
/// # Errors
///
/// Returns `AllocError` if no memory is found.
#[inline(always)]
pub fn copied(alloc: Global, source: &[u8], capacity: usize) -> Result<Vec<u8>, AllocError>
    requires { length source.now ≤ capacity }
    ensures items { IfOk result (λ v. v.items ≡ source.now) }
    ensures capacity { IfOk result (λ v. vec_capacity v ≡ capacity) }
{
    let mut vec = Vec::with_capacity(alloc, capacity)?;
    if source.len() <= SHORT {
        append_short(&mut vec, source);
    } else if source.len() <= 64 {
        replace_with(&mut vec, source, with_ends::<32>);
    } else if source.len() <= MAX_UNROLLED {
        append_65_to_256(&mut vec, source);
    } else if source.len() <= BLOCK {
        replace_with(&mut vec, source, with_block);
    } else {
        // A vector of its own, so that the other needs no address.
        let mut long = vec;
        append_blocks::<BLOCK>(&mut long, source);
        return Ok(long);
    }
    Ok(vec)
}

/// Returns the vector with at most a block appended.
///
/// Copies through an array, so that the compiler sees that no byte is read after it was written. It makes each loop a copy,
/// and both one `memmove` without the array, but only in a small function: so inline this only there.
#[inline(always)]
fn with_block(vec: Vec<u8>, source: &[u8]) -> (Vec<u8>, ())
    requires most { length source.now ≤ BLOCK }
    requires room { vec_len vec + length source.now ≤ vec_capacity vec }
    ensures items { result.0.items ≡ vec.items ++ source.now }
    ensures capacity { vec_capacity result.0 ≡ vec_capacity vec }
{
    let mut vec = vec;
    let mut array = [0; BLOCK];
    let copy = &mut array[..source.len()];
    copy_each(copy, source);
    append_each(&mut vec, copy);
    (vec, ())
}

/// Appends `source`, `N` bytes at a time.
#[inline(never)]
fn append_blocks<const N: usize>(bytes: &mut Vec<u8>, source: &[u8])
    requires some { 0 < N }
    requires most { N ≤ BLOCK }
    requires room { vec_len bytes.old + length source.now ≤ vec_capacity bytes.old }
    ensures items { bytes.new.items ≡ bytes.old.items ++ source.now }
    ensures capacity { vec_capacity bytes.new ≡ vec_capacity bytes.old }
{
    let mut rest = source;
    'copies: while N < rest.len() {
        append_block(bytes, &rest[..N]);
        rest = &rest[N..];
    }
    append_block(bytes, rest);
}

/// Removes and returns the last byte if it is ASCII; otherwise changes nothing. Unlike `truncate`, compares no
/// lengths, for which the next call would wait.
#[inline(always)]
pub fn pop_ascii(bytes: &mut Vec<u8>) -> Option<u8>
    ensures ascii { IfSome result (λ byte. byte < 128) }
    ensures popped { IfSome result (λ byte. bytes.old.items ≡ bytes.new.items ++ byte ∷ []) }
    ensures capacity { vec_capacity bytes.new ≡ vec_capacity bytes.old }
    ensures others { result ≡ None → bytes.new ≡ bytes.old }
{
    match bytes.as_slice().last() {
        Some(byte) if byte.is_ascii() => Some(bytes.take_last()),
        _ => None,
    }
}

/// Removes the bytes from `len` on, a few. Unlike `truncate`, compares no lengths, for which the next call would wait: LLVM
/// makes the loop a subtraction, but the kit's own compiler does not.
#[inline(always)]
pub fn shorten(bytes: &mut Vec<u8>, len: usize)
    requires { len ≤ vec_len bytes.old }
    ensures items { bytes.new.items ≡ take len bytes.old.items }
    ensures len { vec_len bytes.new ≡ len }
    ensures capacity { vec_capacity bytes.new ≡ vec_capacity bytes.old }
{
    for _ in 0..bytes.len() - len {
        bytes.take_last();
    }
}

/// Replaces the bytes from `start` to `end` with `source`.
#[inline(always)]
pub fn splice(bytes: &mut Vec<u8>, start: usize, end: usize, source: &[u8])
    requires order { start ≤ end }
    requires within { end ≤ vec_len bytes.old }
    requires room { vec_len bytes.old + length source.now ≤ vec_capacity bytes.old + (end - start) }
    ensures items { bytes.new.items ≡ replace_range bytes.old.items start end source.now }
    ensures capacity { vec_capacity bytes.new ≡ vec_capacity bytes.old }
{
    let old = bytes.len();
    let len = old - (end - start) + source.len();
    if len > old {
        // Only lengthens the vector; the values are overwritten.
        append_slice(bytes, &source[end - start..]);
        slices::splice(bytes.as_mut_slice(), old, start, end, source);
    } else {
        slices::splice(bytes.as_mut_slice(), old, start, end, source);
        bytes.truncate(len);
    }
}

/// Appends zeros up to a length of `len` bytes.
pub fn append_zeros(bytes: &mut Vec<u8>, len: usize)
    requires longer { vec_len bytes.old ≤ len }
    requires room { len ≤ vec_capacity bytes.old }
    ensures items { bytes.new.items ≡ bytes.old.items ++ replicate (len - vec_len bytes.old) 0 }
    ensures len { vec_len bytes.new ≡ len }
    ensures capacity { vec_capacity bytes.new ≡ vec_capacity bytes.old }
{
    replace_with(bytes, len, with_zeros);
}

/// Returns the vector with zeros appended up to a length of `len` bytes.
#[inline(always)]
#[tactic(auto, using(crate::proofs::Appends::one_more_zero))]
fn with_zeros(vec: Vec<u8>, len: usize) -> (Vec<u8>, ())
    requires longer { vec_len vec ≤ len }
    requires room { len ≤ vec_capacity vec }
    ensures items { result.0.items ≡ vec.items ++ replicate (len - vec_len vec) 0 }
    ensures len { vec_len result.0 ≡ len }
    ensures capacity { vec_capacity result.0 ≡ vec_capacity vec }
{
    let mut vec = vec;
    for _ in vec.len()..len {
        vec.push_reserved(0);
    }
    (vec, ())
}

/// Appends a part of the vector to its end.
pub fn append_within(bytes: &mut Vec<u8>, start: usize, end: usize)
    requires order { start ≤ end }
    requires within { end ≤ vec_len bytes.old }
    requires room { vec_len bytes.old + (end - start) ≤ vec_capacity bytes.old }
    ensures items { bytes.new.items
        ≡ bytes.old.items ++ take (end - start) (drop start bytes.old.items) }
    ensures capacity { vec_capacity bytes.new ≡ vec_capacity bytes.old }
{
    append_blocks_within::<BLOCK>(bytes, start, end - start);
}

/// Appends `count` bytes from `start` on, `N` bytes at a time.
#[inline(always)]
fn append_blocks_within<const N: usize>(bytes: &mut Vec<u8>, start: usize, count: usize)
    requires some { 0 < N }
    requires most { N ≤ BLOCK }
    requires within { start + count ≤ vec_len bytes.old }
    requires room { vec_len bytes.old + count ≤ vec_capacity bytes.old }
    ensures items { bytes.new.items ≡ bytes.old.items ++ take count (drop start bytes.old.items) }
    ensures capacity { vec_capacity bytes.new ≡ vec_capacity bytes.old }
{
    let mut done = 0;
    'copies: while N < count - done {
        append_block_within(bytes, start + done, N);
        done += N;
    }
    append_block_within(bytes, start + done, count - done);
}

/// Appends at most a block from `start` on.
#[inline(never)]
fn append_block_within(bytes: &mut Vec<u8>, start: usize, count: usize)
    requires most { count ≤ BLOCK }
    requires within { start + count ≤ vec_len bytes.old }
    requires room { vec_len bytes.old + count ≤ vec_capacity bytes.old }
    ensures items { bytes.new.items ≡ bytes.old.items ++ take count (drop start bytes.old.items) }
    ensures len { vec_len bytes.new ≡ vec_len bytes.old + count }
    ensures capacity { vec_capacity bytes.new ≡ vec_capacity bytes.old }
{
    replace_with(bytes, (start, count), with_block_within);
}

/// Returns the vector with at most a block of its own appended, as `with_block` does.
#[inline(always)]
fn with_block_within(vec: Vec<u8>, part: (usize, usize)) -> (Vec<u8>, ())
    requires most { part.1 ≤ BLOCK }
    requires within { part.0 + part.1 ≤ vec_len vec }
    requires room { vec_len vec + part.1 ≤ vec_capacity vec }
    ensures items { result.0.items ≡ vec.items ++ take part.1 (drop part.0 vec.items) }
    ensures capacity { vec_capacity result.0 ≡ vec_capacity vec }
{
    let mut vec = vec;
    let (start, count) = part;
    let mut array = [0; BLOCK];
    let copy = &mut array[..count];
    copy_each(copy, &vec.as_slice()[start..][..count]);
    append_each(&mut vec, copy);
    (vec, ())
}

/// Returns the vector with `source`, which has `N` to `2 * N` bytes, appended as its first `N` and its last `N`, without the
/// overlap twice.
#[inline(always)]
fn with_ends<const N: usize>(vec: Vec<u8>, source: &[u8]) -> (Vec<u8>, ())
    requires least { N ≤ length source.now }
    requires most { length source.now ≤ N + N }
    requires room { vec_len vec + length source.now ≤ vec_capacity vec }
    ensures items { result.0.items ≡ vec.items ++ source.now }
    ensures capacity { vec_capacity result.0 ≡ vec_capacity vec }
{
    let mut vec = vec;
    let len = vec.len();
    let rest = source.len() - N;
    append_array::<N>(&mut vec, array_at::<N>(source, 0));
    shorten(&mut vec, len + rest);
    append_array::<N>(&mut vec, array_at::<N>(source, rest));
    (vec, ())
}

/// Appends `piece`.
#[inline(always)]
fn append_array<const N: usize>(vec: &mut Vec<u8>, piece: [u8; N])
    requires { vec_len vec.old + N ≤ vec_capacity vec.old }
    ensures items { vec.new.items ≡ vec.old.items ++ piece.entry }
    ensures len { vec_len vec.new ≡ vec_len vec.old + N }
    ensures capacity { vec_capacity vec.new ≡ vec_capacity vec.old }
{
    append_each(vec, &piece);
}

/// Appends `source` byte by byte. The compiler makes it one copy, as `copy_each`.
#[inline(always)]
fn append_each(vec: &mut Vec<u8>, source: &[u8])
    requires { vec_len vec.old + length source.now ≤ vec_capacity vec.old }
    ensures items { vec.new.items ≡ vec.old.items ++ source.now }
    ensures len { vec_len vec.new ≡ vec_len vec.old + length source.now }
    ensures capacity { vec_capacity vec.new ≡ vec_capacity vec.old }
{
    for i in 0..source.len() {
        vec.push_reserved(source[i]);
    }
}
