//! Laws of the text of a number: functions that do nothing, whose contracts are the laws.
#![tactic(auto, using(compact_text::proofs::TextFacts::text_facts, crate::proofs::Facts::laws_facts))]

ghost use Rattle.std.specs.Prelude.{◌≡◌, ◌+◌, ◌/◌, ◌%◌, ◌<◌, ◌≤◌, ◌^◌, ℕ, [], ◌∷◌, ◌++◌, length};
ghost use Rattle.std.specs.Fmt.{decimal};

/// The text of a number below 10 is its digit. That of a larger one is the text of its tenth and its last digit.
pub fn numbers_go_digit_by_digit()
    ensures one { (n : ℕ) → n < 10 → decimal n ≡ (48 + n) ∷ [] }
    ensures more { (n : ℕ) → 10 ≤ n → n < 2 ^ 128
        → decimal n ≡ decimal (n / 10) ++ (48 + n % 10) ∷ [] }
{}

/// Numbers of up to 64 bits have at most 20 digits, and of up to 128 bits at most 39.
pub fn numbers_are_short()
    ensures u64 { (n : ℕ) → n < 2 ^ 64 → length (decimal n) ≤ 20 }
    ensures u128 { (n : ℕ) → n < 2 ^ 128 → length (decimal n) ≤ 39 }
{}
