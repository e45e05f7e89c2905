//! Growth policies, and the capacity that a heap buffer grows to.
ghost use Rattle.std.specs.Prelude.{◌≡◌, ℕ, ◌*◌, ◌/◌, ◌<◌, ◌^◌, max, nat_le, if◌then◌else◌, Some, None};
ghost use Rattle.compact_repr.specs.Words.{Growth, IsLawful, standard_growth, MAX_CAPACITY};

/// The least capacity of a heap buffer, and its growth factor, `NUM / DEN`.
///
/// Each implementation proves that `MIN_HEAP` is from 25 to 2^56 - 2, `DEN` is at least 1 and below `NUM`, and
/// `NUM + DEN` is at most 255.
pub trait Policy {
    /// The least capacity of a heap buffer, in bytes.
    const MIN_HEAP: usize;

    /// The numerator of the growth factor.
    const NUM: usize;

    /// The denominator of the growth factor.
    const DEN: usize;

    ghost MIN_HEAP: { ℕ };

    ghost NUM: { ℕ };

    ghost DEN: { ℕ };

    ghost growth: { Growth };

    ghost is_growth: { growth ≡ record { least = MIN_HEAP; numerator = NUM; denominator = DEN } };

    ghost lawful: { IsLawful growth };
}

/// The policy of `CompactString`: at least 32 bytes, and a growth factor of 1.5.
pub struct Standard;

impl Policy for Standard {
    ghost use Rattle.std.proofs.Common.{refl};
    ghost use Rattle.compact_repr.specs.Policies.{IsLawful-test};

    const MIN_HEAP: usize = 32;

    const NUM: usize = 3;

    const DEN: usize = 2;

    ghost MIN_HEAP = { 32 };

    ghost NUM = { 3 };

    ghost DEN = { 2 };

    ghost growth = { record { least = 32; numerator = 3; denominator = 2 } };

    ghost is_growth = { refl };

    ghost lawful = { IsLawful-test _ refl };
}

/// A law; the function does nothing. `Standard` allocates at least 32 bytes, and grows by half.
pub fn standard_grows_by_half()
    ensures { ⟦<Standard as Policy>⟧.growth ≡ standard_growth }
{}

/// The largest capacity that can be allocated, 2^56 - 2 bytes.
pub const MAX_CAPACITY: usize = 72057594037927934;

/// Returns the capacity to which a text of `len` bytes grows for `needed` bytes, or `None` if it exceeds `MAX_CAPACITY`.
#[tactic(auto, using(compact_text::proofs::TextFacts::text_facts, crate::proofs::Facts::growth_facts))]
pub fn grown_capacity<P: Policy>(len: usize, needed: usize) -> Option<usize>
    requires { len < 2 ^ 63 }
    ensures { let c = max P.growth.least
        (max needed (P.growth.numerator * len / P.growth.denominator))
        in result ≡ (if nat_le c MAX_CAPACITY then Some c else None) }
{
    let Some(product) = len.checked_mul(P::NUM) else {
        return None;
    };
    checked_capacity::<P>(needed.max(product / P::DEN))
}

/// Returns the heap capacity for `wanted` bytes, at least the policy's least, or `None` if it exceeds `MAX_CAPACITY`.
pub fn checked_capacity<P: Policy>(wanted: usize) -> Option<usize>
    ensures { let c = max P.growth.least wanted
        in result ≡ (if nat_le c MAX_CAPACITY then Some c else None) }
{
    let capacity = wanted.max(P::MIN_HEAP);
    if capacity > MAX_CAPACITY {
        return None;
    }
    Some(capacity)
}
