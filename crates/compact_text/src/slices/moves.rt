//! Overlapping moves within a byte slice: up to 128 bytes by both ends, which are read before either is written; more by one
//! `memmove` for each block, from the end if they move up.
#![tactic(auto, using(crate::proofs::TextFacts::text_facts, crate::proofs::Facts::moves_facts))]

ghost use Rattle.std.specs.Prelude.{◌≡◌, ◌+◌, ◌-◌, ◌≤◌, ◌<◌, length, drop};
ghost use lib.Seq.{paste};

use super::simd::{load, store};
use super::{BLOCK, SHORT, copy_each};

/// The most bytes that are moved without a call of `memmove`, which takes longer to begin. All are read before any is
/// written.
const MAX_UNROLLED: usize = 128;

/// Moves `count` bytes from `from` to `to`, which may overlap.
#[inline(always)]
#[tactic(auto, using(crate::proofs::MovesByBlock::paste_same, crate::proofs::Facts::moves_facts))]
pub fn move_bytes(slice: &mut [u8], from: usize, to: usize, count: usize)
    requires source { from + count ≤ length slice.old }
    requires target { to + count ≤ length slice.old }
    ensures { slice.new ≡ paste slice.old to (drop from slice.old) count }
{
    if from == to {
        return;
    }
    if count <= MAX_UNROLLED {
        move_up_to_128(slice, from, to, count);
    } else {
        move_long(slice, from, to, count);
    }
}

/// Moves more than 128 bytes. Not inlined, so that a short move can be.
#[inline(never)]
fn move_long(slice: &mut [u8], from: usize, to: usize, count: usize)
    requires source { from + count ≤ length slice.old }
    requires target { to + count ≤ length slice.old }
    ensures { slice.new ≡ paste slice.old to (drop from slice.old) count }
{
    if count <= BLOCK {
        move_block(slice, from, to, count);
    } else if from < to {
        move_blocks_up::<BLOCK>(slice, from, to, count);
    } else {
        move_blocks_down::<BLOCK>(slice, from, to, count);
    }
}

/// Moves at most a block: by one `memmove`, without the array, as `vec::with_block`.
#[inline(never)]
fn move_block(slice: &mut [u8], from: usize, to: usize, count: usize)
    requires most { count ≤ BLOCK }
    requires source { from + count ≤ length slice.old }
    requires target { to + count ≤ length slice.old }
    ensures { slice.new ≡ paste slice.old to (drop from slice.old) count }
{
    let mut array = [0; BLOCK];
    let copy = &mut array[..count];
    copy_each(copy, &slice[from..from + count]);
    copy_each(&mut slice[to..to + count], copy);
}

/// Moves bytes up, the last ones first.
#[inline(never)]
fn move_blocks_up<const N: usize>(slice: &mut [u8], from: usize, to: usize, count: usize)
    requires some { 0 < N }
    requires most { N ≤ BLOCK }
    requires upward { from ≤ to }
    requires target { to + count ≤ length slice.old }
    ensures { slice.new ≡ paste slice.old to (drop from slice.old) count }
{
    let mut left = count;
    'moves: while N < left {
        left -= N;
        move_block(slice, from + left, to + left, N);
    }
    move_block(slice, from, to, left);
}

/// Moves bytes down, the first ones first.
#[inline(never)]
fn move_blocks_down<const N: usize>(slice: &mut [u8], from: usize, to: usize, count: usize)
    requires some { 0 < N }
    requires most { N ≤ BLOCK }
    requires downward { to ≤ from }
    requires source { from + count ≤ length slice.old }
    ensures { slice.new ≡ paste slice.old to (drop from slice.old) count }
{
    let mut done = 0;
    'moves: while N < count - done {
        move_block(slice, from + done, to + done, N);
        done += N;
    }
    move_block(slice, from + done, to + done, count - done);
}

/// Moves at most 128 bytes.
#[inline(always)]
fn move_up_to_128(slice: &mut [u8], from: usize, to: usize, count: usize)
    requires most { count ≤ MAX_UNROLLED }
    requires source { from + count ≤ length slice.old }
    requires target { to + count ≤ length slice.old }
    ensures { slice.new ≡ paste slice.old to (drop from slice.old) count }
{
    if count >= 64 {
        move_overlapping::<64>(slice, from, to, count);
    } else if count >= 32 {
        move_overlapping::<32>(slice, from, to, count);
    } else {
        move_short(slice, from, to, count);
    }
}

/// Moves at most 32 bytes: their first and their last 16, 8, 4, 2 or 1, without a loop or a call.
#[inline(always)]
pub fn move_short(slice: &mut [u8], from: usize, to: usize, count: usize)
    requires short { count ≤ SHORT }
    requires source { from + count ≤ length slice.old }
    requires target { to + count ≤ length slice.old }
    ensures { slice.new ≡ paste slice.old to (drop from slice.old) count }
{
    if count >= 16 {
        move_overlapping::<16>(slice, from, to, count);
    } else if count >= 8 {
        move_overlapping::<8>(slice, from, to, count);
    } else if count >= 4 {
        move_overlapping::<4>(slice, from, to, count);
    } else if count >= 2 {
        move_overlapping::<2>(slice, from, to, count);
    } else if count == 1 {
        move_overlapping::<1>(slice, from, to, count);
    }
}

/// Moves `count` bytes, `N` to `2 * N`, as the first `N` and the last `N`.
#[inline(always)]
pub fn move_overlapping<const N: usize>(slice: &mut [u8], from: usize, to: usize, count: usize)
    requires least { N ≤ count }
    requires most { count ≤ N + N }
    requires source { from + count ≤ length slice.old }
    requires target { to + count ≤ length slice.old }
    ensures { slice.new ≡ paste slice.old to (drop from slice.old) count }
{
    let first = load::<N>(slice, from);
    let last = load::<N>(slice, from + (count - N));
    store(slice, to, first);
    store(slice, to + (count - N), last);
}
