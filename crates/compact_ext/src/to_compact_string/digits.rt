//! The text of an integer of up to 64 bits: its digits from the end, four or two at a time, and then its sign.
//!
//! The text is built as a little-endian number: each group of digits is shifted in below. So whole words are written.
ghost use Rattle.std.specs.Prelude.{◌≡◌, ℕ, ◌+◌, ◌*◌, ◌^◌, ◌<◌, ◌≤◌, length};
ghost use Rattle.std.specs.Fmt.{decimal, sign_text};
ghost use Rattle.compact_text.specs.WordBytes.{le_number};
ghost use Rattle.compact_repr.specs.Packed.{packed_bytes};
ghost use Rattle.compact_ext.specs.Digits.{two_digits, four_digits, prepended_number, number_text};

use compact_text::words::array_of_words;
use std::marker::Model;

/// The two digits of each number below 100.
static PAIRS: [u8; 200] = *b"0001020304050607080910111213141516171819\
2021222324252627282930313233343536373839\
4041424344454647484950515253545556575859\
6061626364656667686970717273747576777879\
8081828384858687888990919293949596979899";

/// 2^64.
const PAST_WORD: u128 = 0x1_0000_0000_0000_0000;

/// Returns the packed form of a number: a minus if it is negative, and the digits of its magnitude.
#[inline]
#[tactic(auto, using(crate::proofs::Digits::packed_number_facts))]
pub fn packed_number(magnitude: u64, is_negative: bool) -> [u8; 24]
    ensures { result ≡ packed_bytes (number_text is_negative magnitude) }
{
    let len = usize::from(is_negative) + count_digits(magnitude);
    digits_of(magnitude).prepend_sign(is_negative).packed(len)
}

/// Returns the number of digits of `n`.
#[inline]
#[tactic(auto, using(crate::proofs::Digits::digit_count_facts))]
fn count_digits(n: u64) -> usize
    ensures count { result ≡ length (decimal n) }
    ensures short { result ≤ 20 }
{
    if n == 0 {
        return 1;
    }
    n.ilog10() as usize + 1
}

/// Returns the digits of `n`: four at a time, then two, then the last one or two.
#[inline(always)]
#[tactic(auto, using(crate::proofs::Digits::digit_group_facts))]
fn digits_of(n: u64) -> ShortText
    ensures { result ≡ le_number (decimal n) }
{
    let mut rest = n;
    let mut text = ShortText { low: 0, high: 0 };
    while rest >= 10_000 {
        text = text.prepend(four(rest % 10_000), 4);
        rest /= 10_000;
    }
    text.prepend_first(rest)
}

/// Returns the number of pairs of digits after the first one or two of a number below 10,000.
#[inline(always)]
fn count_pairs(n: u64) -> u64
    ensures none { n < 100 → result ≡ 0 }
    ensures one { 100 ≤ n → result ≡ 1 }
{
    if n >= 100 { 1 } else { 0 }
}

/// Returns the number of digits of `n`.
#[inline(always)]
#[tactic(auto, using(crate::proofs::Digits::first_digit_facts))]
fn count_first(n: u64) -> usize
    requires { n < 100 }
    ensures len { result ≡ length (decimal n) }
    ensures some { 1 ≤ result }
    ensures most { result ≤ 2 }
{
    if n >= 10 { 2 } else { 1 }
}

/// Returns the four digits of `n`, the first as the lowest byte.
#[inline(always)]
fn four(n: u64) -> u64
    requires { n < 10000 }
    ensures { result ≡ le_number (four_digits n) }
{
    pair(n / 100) + (pair(n % 100) << 16)
}

/// Returns the two digits of `n`, the first as the lowest byte.
#[inline(always)]
#[tactic(auto, using(crate::proofs::Digits::pair_facts))]
fn pair(n: u64) -> u64
    requires { n < 100 }
    ensures { result ≡ le_number (two_digits n) }
{
    let place = n as usize * 2;
    u64::from(u16::from_le_bytes([PAIRS[place], PAIRS[place + 1]]))
}

/// A text of at most 23 bytes as a number, the first byte as the lowest: 16 bytes and the others.
#[derive(Drop)]
struct ShortText {
    low: u128,
    high: u64,
}

impl Model for ShortText {
    ghost Value = { ℕ };

    ghost view = { λ text. text.high * 2 ^ 128 + text.low };
}

impl ShortText {
    /// Prepends a group of `count` characters.
    #[inline(always)]
    #[tactic(auto, using(crate::proofs::Digits::moves))]
    fn prepend(self, group: u64, count: usize) -> Self
        requires some { 1 ≤ count }
        requires most { count ≤ 4 }
        requires group { group < 2 ^ (8 * count) }
        requires fits { self < 2 ^ 160 }
        ensures { result ≡ self * 2 ^ (8 * count) + group }
    {
        let bits = 8 * count;
        ShortText {
            low: (self.low << bits) + u128::from(group),
            high: (self.high << bits) + ((self.low >> 64) as u64 >> (64 - bits)),
        }
    }

    /// Prepends the digits of a number below 10,000: two, then the last one or two.
    #[inline(always)]
    #[tactic(auto, using(crate::proofs::Digits::last_digit_facts))]
    fn prepend_first(self, n: u64) -> Self
        requires small { n < 10000 }
        requires fits { self < 2 ^ 160 }
        ensures { result ≡ prepended_number self (decimal n) }
    {
        // Products and shifts in place of a branch.
        let pairs = count_pairs(n);
        let two = pair(n % 100) * pairs;
        let last = n - (n - n / 100) * pairs;
        let count = count_first(last);
        let group = (two << (8 * count)) + (pair(last) >> (8 * (2 - count)));
        self.prepend(group, count + 2 * pairs as usize)
    }

    /// Prepends a minus if `is_negative`.
    #[inline(always)]
    fn prepend_sign(self, is_negative: bool) -> Self
        requires { self < 2 ^ 160 }
        ensures { result ≡ prepended_number self (sign_text is_negative) }
    {
        if is_negative {
            self.prepend(b'-' as u64, 1)
        } else {
            self
        }
    }

    /// Returns the packed form, with the length in the last byte.
    #[inline(always)]
    #[tactic(auto, using(crate::proofs::Digits::packed_word_facts))]
    fn packed(self, len: usize) -> [u8; 24]
        requires few { len ≤ 23 }
        requires fits { self < 2 ^ 184 }
        ensures { le_number result ≡ (192 + len) * 2 ^ 184 + self }
    {
        let first = (self.low % PAST_WORD) as u64;
        let second = (self.low >> 64) as u64;
        let third = self.high + ((192 + len as u64) << 56);
        array_of_words(first, second, third)
    }
}
