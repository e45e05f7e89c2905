//! SIMD loads and stores.
ghost use Rattle.std.specs.Prelude.{◌≡◌, ◌+◌, ◌≤◌, ◌++◌, length, take, drop};
ghost use lib.Seq.{paste};

use std::simd::prelude::*;

/// Loads the `N` bytes at `at`.
#[inline(always)]
pub fn load<const N: usize>(slice: &[u8], at: usize) -> Simd<u8, N>
    requires { at + N ≤ length slice.now }
    ensures bytes { result ≡ take N (drop at slice.now) }
    ensures lanes { length result ≡ N }
{
    Simd::from_slice(&slice[at..])
}

/// Stores `N` bytes at `at`.
#[inline(always)]
pub fn store<const N: usize>(slice: &mut [u8], at: usize, chunk: Simd<u8, N>)
    requires long_enough { at + N ≤ length slice.old }
    requires lanes { length chunk ≡ N }
    ensures { slice.new ≡ paste slice.old at chunk.entry N }
{
    store_first(&mut slice[at..], chunk);
}

/// Stores the first `N` bytes.
#[inline(always)]
#[tactic(auto, using(crate::proofs::TextFacts::text_facts, crate::proofs::Facts::simd_facts))]
fn store_first<const N: usize>(slice: &mut [u8], chunk: Simd<u8, N>)
    requires long_enough { N ≤ length slice.old }
    requires lanes { length chunk ≡ N }
    ensures { slice.new ≡ chunk.entry ++ drop N slice.old }
{
    chunk.copy_to_slice(slice);
}
