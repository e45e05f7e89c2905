//! 16-bit units read as UTF-16 (Unicode Standard, 3.9).
#![tactic(auto, using(crate::proofs::Facts::utf16_facts))]

ghost use Rattle.std.specs.Prelude.{◌≡◌, ◌↔◌, ◌+◌, ◌^◌, ◌<◌, ◌≤◌, ◌∷◌, ℕ, List, take, drop, length, unwrap_or, slice_get, slice_index, IsTrue};
ghost use Rattle.compact_text.specs.Text.{replacement_character};
ghost use Rattle.std.specs.Char.Utf16.{is_high_surrogate, is_low_surrogate};
ghost use Rattle.compact_codec.specs.Utf16Text.{IsUtf16, IsUtf16Step, utf16_lossy_text, UnitsEncodeOneText, Utf16HasNoUnpairedSurrogate, Utf16LossyTextIsUnique, Utf16LossyTextOfText};

use std::simd::prelude::*;

/// UTF-16 units that are read by position: those of a slice, or pairs of bytes.
pub trait Units: Copy {
    // The units.
    ghost units: { Self → List ℕ };

    /// Returns the number of units.
    fn len(self) -> usize
        ensures len { result ≡ length (units self) }
        ensures few { result < 2 ^ 62 };

    /// Returns the unit at `at`.
    fn unit(self, at: usize) -> u16
        requires { at < length (units self) }
        ensures { result ≡ slice_index (units self) at };

    /// Returns the 16 units from `at` on.
    fn block(self, at: usize) -> u16x16
        requires { at + 16 ≤ length (units self) }
        ensures { result ≡ take 16 (drop at (units self)) };
}

impl Units for &[u16] {
    ghost units = { λ s. s.now };

    #[inline]
    fn len(self) -> usize {
        <[u16]>::len(self)
    }

    #[inline]
    fn unit(self, at: usize) -> u16 {
        self[at]
    }

    #[inline]
    fn block(self, at: usize) -> u16x16 {
        u16x16::from_slice(&self[at..])
    }
}

/// One step of a decoder.
#[derive(Clone, Copy, Debug, PartialEq, Eq)]
pub struct Utf16Step {
    /// The first character, or `None` for an unpaired surrogate or an odd last byte. A lossy decoder writes
    /// `unwrap_or(char::REPLACEMENT_CHARACTER)`.
    pub character: Option<char>,
    /// The length of the step: 1 or 2 units, or in bytes 1, 2 or 4.
    pub taken: usize,
}

/// Decodes the step at `first`, which `second` follows.
#[inline]
pub(crate) fn step_over(first: u16, second: Option<u16>) -> Utf16Step
    ensures step { (rest : List ℕ) → slice_get rest 0 ≡ second
        → IsUtf16Step (first ∷ rest) result.character result.taken }
    ensures taken { result.taken ≤ 2 }
{
    if !(0xD800..=0xDFFF).contains(&first) {
        return Utf16Step {
            character: char::from_u32(u32::from(first)),
            taken: 1,
        };
    }
    match second {
        Some(second) if first <= 0xDBFF && (0xDC00..=0xDFFF).contains(&second) => {
            let high = u32::from(first - 0xD800);
            let low = u32::from(second - 0xDC00);
            Utf16Step {
                character: char::from_u32(0x1_0000 + high * 0x400 + low),
                taken: 2,
            }
        }
        _ => Utf16Step {
            character: None,
            taken: 1,
        },
    }
}

/// Decodes the character at `at`, or returns `None` for an unpaired surrogate, of one unit.
///
/// # Examples
///
/// `[0xD834, 0xDD1E]` begins with U+1D11E, of two units. `[0xD834, 0x0041]` begins with an unpaired surrogate.
#[inline]
pub fn character_at<U: Units>(units: U, at: usize) -> Utf16Step
    requires { at < length (U.units units) }
    ensures taken { (0 < result.taken) × (at + result.taken ≤ length (U.units units)) }
    ensures few { result.taken ≤ 2 }
    ensures lossy { utf16_lossy_text (drop at (U.units units))
        ≡ unwrap_or result.character replacement_character
        ∷ utf16_lossy_text (drop (at + result.taken) (U.units units)) }
{
    let len = units.len();
    let second = if at + 1 < len {
        Some(units.unit(at + 1))
    } else {
        None
    };
    step_over(units.unit(at), second)
}

/// Returns `true` if the units encode a text, that is, if no surrogate is unpaired.
///
/// # Examples
///
/// `[0xD834, 0xDD1E]` is valid, `[0x0061, 0xDC00]` is not.
pub fn is_utf16(units: &[u16]) -> bool
    ensures { IsTrue result ↔ IsUtf16 units.now }
{
    are_paired(units)
}

/// Returns `true` if no surrogate is unpaired. Never exits early, so that the loop vectorizes.
pub fn are_paired<U: Units>(units: U) -> bool
    ensures { IsTrue result ↔ IsUtf16 (U.units units) }
{
    let mut after_high = false;
    let mut unpaired = false;
    let mut at = 0;
    while at < units.len() {
        let unit = units.unit(at);
        unpaired |= after_high ^ is_low(unit);
        after_high = is_high(unit);
        at += 1;
    }
    !unpaired && !after_high
}

/// Returns `true` for the first unit of a pair.
#[inline]
fn is_high(unit: u16) -> bool
    ensures { result ≡ is_high_surrogate unit }
{
    0xD800 <= unit && unit < 0xDC00
}

/// Returns `true` for the second unit of a pair.
#[inline]
fn is_low(unit: u16) -> bool
    ensures { result ≡ is_low_surrogate unit }
{
    0xDC00 <= unit && unit < 0xE000
}

/// A law: units encode at most one text.
pub fn units_encode_one_text()
    ensures { UnitsEncodeOneText }
{}

/// A law: units encode a text exactly if no surrogate is unpaired, by std's test.
pub fn utf16_has_no_unpaired_surrogate()
    ensures { Utf16HasNoUnpairedSurrogate }
{}

/// A law: units have exactly one lossy text, std's.
pub fn units_have_one_lossy_text()
    ensures { Utf16LossyTextIsUnique }
{}

/// A law: the lossy text of a text's units is the text.
pub fn a_text_is_its_own_lossy_text()
    ensures { Utf16LossyTextOfText }
{}
