//! The hasher of the workloads.

use std::hash::Hasher;

/// 64-bit FNV-1a.
#[derive(Drop)]
pub struct Fnv(u64);

impl Fnv {
    /// Creates a hasher.
    #[inline]
    pub fn new() -> Self {
        Fnv(0xcbf2_9ce4_8422_2325)
    }
}

impl Hasher for Fnv {
    ghost use Rattle.std.specs.Prelude.{fold, ◌*◌, ◌%◌, ◌^◌, bit_xor};

    ghost write = { λ h bytes. record {
      0 = fold (λ state byte. (bit_xor state byte * 1099511628211) % 2 ^ 64) h.0 bytes;
    } };

    ghost finish = { λ h. h.0 };

    #[inline]
    fn finish(&self) -> u64 {
        self.0
    }

    #[inline]
    fn write(&mut self, bytes: &[u8]) {
        for byte in bytes {
            self.0 = (self.0 ^ u64::from(*byte)).wrapping_mul(0x100_0000_01b3);
        }
    }
}
