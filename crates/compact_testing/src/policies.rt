//! Growth policies of users: one that doubles, one that grows slowly, and one with a large minimum.
ghost use Rattle.std.proofs.Common.{refl};
ghost use Rattle.compact_str.specs.Policies.{IsLawful-test};

use compact_str::Policy;

/// Doubles the capacity at each growth, from 32 bytes on.
pub struct Double;

impl Policy for Double {
    const MIN_HEAP: usize = 32;

    const NUM: usize = 2;

    const DEN: usize = 1;

    ghost MIN_HEAP = { 32 };

    ghost NUM = { 2 };

    ghost DEN = { 1 };

    ghost growth = { record { least = 32; numerator = 2; denominator = 1 } };

    ghost is_growth = { refl };

    ghost lawful = { IsLawful-test _ refl };
}

/// Grows by a quarter, from the least minimum that a policy may have.
pub struct Slow;

impl Policy for Slow {
    const MIN_HEAP: usize = 25;

    const NUM: usize = 5;

    const DEN: usize = 4;

    ghost MIN_HEAP = { 25 };

    ghost NUM = { 5 };

    ghost DEN = { 4 };

    ghost growth = { record { least = 25; numerator = 5; denominator = 4 } };

    ghost is_growth = { refl };

    ghost lawful = { IsLawful-test _ refl };
}

/// Allocates 4096 bytes at the first growth, then grows by half.
pub struct Large;

impl Policy for Large {
    const MIN_HEAP: usize = 4096;

    const NUM: usize = 3;

    const DEN: usize = 2;

    ghost MIN_HEAP = { 4096 };

    ghost NUM = { 3 };

    ghost DEN = { 2 };

    ghost growth = { record { least = 4096; numerator = 3; denominator = 2 } };

    ghost is_growth = { refl };

    ghost lawful = { IsLawful-test _ refl };
}
