//! Random numbers.

/// A linear congruential generator: multiplies its state by 6364136223846793005 and adds 1442695040888963407, modulo
/// 2^64. A draw is the high 31 bits.
#[derive(Drop)]
pub struct Random {
    state: u64,
}

impl Random {
    /// Creates a generator with this state.
    pub fn new(state: u64) -> Self {
        Random { state }
    }

    /// Returns the next draw, modulo `bound`.
    pub fn below(&mut self, bound: u64) -> u64 {
        let product = self.state.wrapping_mul(6364136223846793005);
        self.state = product.wrapping_add(1442695040888963407);
        (self.state >> 33).checked_rem(bound).unwrap_or(0)
    }
}
