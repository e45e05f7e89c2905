//! A `&'static str`, stored as a raw pointer.
//!
//! A lifetime parameter, `'static` too, restricts users: a call that is generic over iterators takes no iterator of
//! references beside it, and a guard in a `Result` hides from its caller what the value becomes.
ghost use Rattle.std.specs.Prelude.{◌≡◌, ◌<◌, ◌^◌, ℕ, List, [], ◌∷◌, ◌++◌, length, MatchOption};
ghost use denote.Ref.{Bor};
ghost use Rattle.compact_repr.specs.Loan.{static_loan, address};
ghost use Rattle.compact_repr.specs.Words.{size, utf8, text_of, IsText, IsBoundary, text_before, text_after};

use compact_text::str_parts;
use std::marker::Model;
use std::{slice, str};

/// A zero-sized permission to read `'static` bytes.
#[derive(Drop)]
struct StaticLoan {
    ghost bytes: { Bor (List ℕ) },
}

impl Model for StaticLoan {
    ghost also_owns = { λ loan. static_loan loan.bytes };

    ghost also_shares = { λ loan _ _. static_loan loan.bytes };
}

impl StaticLoan {
    /// Returns the address of `bytes`, and the right to read them there.
    #[inline]
    fn of(bytes: &'static [u8]) -> (*const u8, StaticLoan)
        ensures { (result.0 ≡ address result.1.bytes) × (result.1.bytes.now ≡ bytes.now) }
    {
        (bytes.as_ptr(), StaticLoan {})
    }

    /// Returns the `len` bytes at `at`.
    #[inline]
    fn read(&self, at: *const u8, len: usize) -> &'static [u8]
        requires { (at ≡ address self.now.bytes) × (len ≡ length self.now.bytes.now) }
        ensures { result.now ≡ self.now.bytes.now }
    {
        unsafe { slice::from_raw_parts(at, len) }
    }
}

/// A text that outlives every value. A contract sees the text.
#[derive(Drop)]
pub struct StaticStr {
    at: *const u8,
    len: usize,
    loan: StaticLoan,
}

impl Model for StaticStr {
    ghost use Rattle.std.specs.Prelude.{◌≡◌, ◌<◌, ◌^◌, ℕ, List, length, IsUtf8};
    ghost use Rattle.compact_repr.specs.Loan.{address};
    ghost use Rattle.compact_repr.specs.Words.{text_of};

    ghost Value = { List ℕ };

    ghost view = { λ t. text_of t.loan.bytes.now };

    ghost invariant = { λ t. (t.at ≡ address t.loan.bytes) × (t.len ≡ length t.loan.bytes.now)
        × (t.len < 2 ^ 63) × IsUtf8 t.loan.bytes.now };
}

// Nothing writes through the pointer, so every thread may read.
unsafe impl Send for StaticStr {}

unsafe impl Sync for StaticStr {}

impl StaticStr {
    /// Wraps `text`, without copying.
    #[inline]
    pub fn new(text: &'static str) -> Self
        ensures { result ≡ text_of text.now }
    {
        let bytes = text.as_bytes();
        let len = bytes.len();
        let (at, loan) = StaticLoan::of(bytes);
        StaticStr { at, len, loan }
    }

    /// The length in bytes.
    #[inline]
    #[tactic(auto, using(compact_text::proofs::TextFacts::text_facts, crate::proofs::Facts::static_str_facts))]
    pub fn len(&self) -> usize
        ensures value { result ≡ size self.now }
        ensures small { result < 2 ^ 63 }
        ensures text { IsText self.now }
    {
        self.len
    }

    /// Returns the text, which outlives the value.
    #[inline]
    pub fn as_static_str(&self) -> &'static str
        ensures bytes { result.now ≡ utf8 self.now }
        ensures text { text_of result.now ≡ self.now }
    {
        let bytes = self.loan.read(self.at, self.len);
        unsafe { str::from_utf8_unchecked(bytes) }
    }

    /// Returns the same text, without copying.
    #[inline]
    pub fn clone(&self) -> Self
        ensures { result ≡ self.now }
    {
        Self::new(self.as_static_str())
    }

    /// Returns the first `len` bytes, which end at a boundary.
    #[inline]
    pub fn slice_to(&self, len: usize) -> Self
        requires { IsBoundary self.now len }
        ensures { result ≡ text_before self.now len }
    {
        Self::new(str_parts::prefix(self.as_static_str(), len))
    }

    /// Removes and returns the last character, or returns `None` if the text is empty.
    #[inline]
    pub fn pop(&mut self) -> Option<char>
        ensures { MatchOption result ((self.old ≡ []) × (self.new ≡ self.old))
            (λ c. self.old ≡ self.new ++ c ∷ []) }
    {
        let (index, character) = str_parts::split_last(self.as_static_str())?;
        *self = self.slice_to(index);
        Some(character)
    }

    /// Returns the bytes from `index` on, a boundary.
    #[inline]
    pub fn slice_from(&self, index: usize) -> Self
        requires { IsBoundary self.now index }
        ensures { result ≡ text_after self.now index }
    {
        Self::new(str_parts::suffix(self.as_static_str(), index))
    }
}
