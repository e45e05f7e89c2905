//! A buffer on the stack in which units become UTF-8.
ghost use Rattle.std.specs.Prelude.{if◌then◌else◌, ◌≡◌, ◌+◌, ◌*◌, ◌-◌, ◌^◌, ◌<◌, ◌≤◌, ◌++◌, length, take, drop};
ghost use Rattle.std.specs.Char.{encode_utf8};
ghost use Rattle.std.specs.Int.{is_in_range};
ghost use Rattle.std.specs.Str.{IsUtf8};
ghost use Rattle.compact_str.specs.Words.{text_of};
ghost use Rattle.compact_codec.specs.Utf16Text.{utf16_lossy_text};

use crate::decode::utf16_run::{
    BLOCK, begins_with_ascii, begins_with_three_byte, begins_with_two_byte, write_ascii,
    write_three_byte, write_two_byte,
};
use compact_codec::utf16::{self, Units};

/// The capacity of the buffer.
pub const BUFFER_LEN: usize = 256;

/// How much was read and written.
#[derive(Clone, Copy)]
pub struct Filled {
    /// The number of units read.
    pub taken: usize,
    /// The number of bytes in the buffer.
    pub len: usize,
}

/// Writes the lossy text of the units from `from` on to the front of `buffer`, until they end or the next character may
/// not fit.
#[inline]
pub fn encode_into<U: Units>(buffer: &mut [u8; 256], units: U, from: usize) -> Filled
    requires { from ≤ length (U.units units) }

    // The buffer begins with the lossy text of the units that were read, at least one.
    ensures taken { from + result.taken ≤ length (U.units units) }
    ensures some { from < length (U.units units) → 0 < result.taken }
    ensures len { result.len ≤ 256 }
    ensures utf8 { IsUtf8 (take result.len buffer.new) }
    ensures text { text_of (take result.len buffer.new)
        ++ utf16_lossy_text (drop (from + result.taken) (U.units units))
        ≡ utf16_lossy_text (drop from (U.units units)) }
{
    let count = units.len();
    let mut at = from;
    let mut len = 0;
    while count - at >= BLOCK && len <= BUFFER_LEN - 2 * BLOCK {
        let next = write_block(buffer, len, units, at);
        at += next.taken;
        len = next.len;
    }
    if count - at < BLOCK && len <= BUFFER_LEN - 4 * BLOCK {
        while at < count {
            let next = write_next(buffer, len, units, at);
            at += next.taken;
            len = next.len;
        }
    }
    Filled {
        taken: at - from,
        len,
    }
}

/// Writes the run of characters of one width with which the block at `at` begins, after the first `len` bytes. Writes
/// the next three characters if there is no such run.
#[inline(always)]
#[tactic(auto, using(crate::proofs::UnitRuns::run_text))]
fn write_block<U: Units>(buffer: &mut [u8; 256], len: usize, units: U, at: usize) -> Filled
    requires room { len + 32 ≤ 256 }
    requires block { at + 16 ≤ length (U.units units) }
    requires few { length (U.units units) < 2 ^ 62 }
    requires utf8 { IsUtf8 (take len buffer.old) }
    ensures taken { (0 < result.taken) × (at + result.taken ≤ length (U.units units)) }
    ensures len { result.len ≤ len + 32 }
    ensures utf8 { IsUtf8 (take result.len buffer.new) }
    ensures text { text_of (take result.len buffer.new)
        ++ utf16_lossy_text (drop (at + result.taken) (U.units units))
        ≡ text_of (take len buffer.old) ++ utf16_lossy_text (drop at (U.units units)) }
{
    let block = units.block(at);
    if begins_with_ascii(block) {
        let letters = write_ascii(buffer, len, block);
        return Filled {
            taken: letters,
            len: len + letters,
        };
    }
    if begins_with_two_byte(block) {
        let pairs = write_two_byte(buffer, len, block);
        return Filled {
            taken: pairs,
            len: len + 2 * pairs,
        };
    }
    if begins_with_three_byte(block) {
        write_three_byte(buffer, len, block);
        return Filled {
            taken: 4,
            len: len + 12,
        };
    }
    let one = write_next(buffer, len, units, at);
    let two = write_next(buffer, one.len, units, at + one.taken);
    let three = write_next(buffer, two.len, units, at + one.taken + two.taken);
    Filled {
        taken: one.taken + two.taken + three.taken,
        len: three.len,
    }
}

/// Writes the next character, or U+FFFD for an unpaired surrogate, after the first `len` bytes.
#[inline(always)]
fn write_next<U: Units>(buffer: &mut [u8; 256], len: usize, units: U, at: usize) -> Filled
    requires room { len + 4 ≤ 256 }
    requires some { at < length (U.units units) }
    requires utf8 { IsUtf8 (take len buffer.old) }
    ensures taken { (0 < result.taken) × (at + result.taken ≤ length (U.units units)) }
    ensures few { result.taken ≤ 2 }
    ensures len { result.len ≤ len + 4 }
    ensures utf8 { IsUtf8 (take result.len buffer.new) }
    ensures text { text_of (take result.len buffer.new)
        ++ utf16_lossy_text (drop (at + result.taken) (U.units units))
        ≡ text_of (take len buffer.old) ++ utf16_lossy_text (drop at (U.units units)) }
{
    let unit = units.unit(at);
    if !is_surrogate(unit) {
        let end = write_unit(buffer, len, unit);
        return Filled { taken: 1, len: end };
    }
    let step = utf16::character_at(units, at);
    let character = step.character.unwrap_or(char::REPLACEMENT_CHARACTER);
    let end = write_character(buffer, len, character);
    Filled {
        taken: step.taken,
        len: end,
    }
}

/// Returns `true` if `unit` is a surrogate.
#[inline]
fn is_surrogate(unit: u16) -> bool
    ensures { result ≡ is_in_range 0xD800 0xDFFF unit }
{
    0xD800 <= unit && unit <= 0xDFFF
}

/// Writes a unit that is no surrogate at `at`, and returns the end. Always writes three bytes, without a branch.
#[inline]
#[tactic(auto, using(compact_text::proofs::TextFacts::text_facts, crate::proofs::Facts::utf16_block_facts))]
fn write_unit(buffer: &mut [u8; 256], at: usize, unit: u16) -> usize
    requires { at + 4 ≤ 256 }
    ensures bytes { take result buffer.new ≡ take at buffer.old ++ encode_utf8 unit }
    ensures end { (at < result) × (result ≤ at + 3) }
{
    let one = unit < 0x80;
    let two = unit < 0x800;
    let last = 0x80 + unit % 64;
    let first = select(one, unit, select(two, 0xC0 + unit / 64, 0xE0 + unit / 4096));
    let second = select(two, last, 0x80 + unit / 64 % 64);
    buffer[at] = first as u8;
    buffer[at + 1] = second as u8;
    buffer[at + 2] = last as u8;
    at + select(one, 1, select(two, 2, 3)) as usize
}

/// Returns `yes` if `test` is true, else `no`.
#[inline]
fn select(test: bool, yes: u16, no: u16) -> u16
    ensures { result ≡ (if test then yes else no) }
{
    if test { yes } else { no }
}

/// Writes `character` at `at`, and returns the end.
#[inline]
#[tactic(auto, using(compact_text::proofs::TextFacts::text_facts, crate::proofs::Facts::utf16_block_facts))]
fn write_character(buffer: &mut [u8; 256], at: usize, character: char) -> usize
    requires { at + 4 ≤ 256 }
    ensures bytes { take result buffer.new ≡ take at buffer.old ++ encode_utf8 character }
    ensures end { (at < result) × (result ≤ at + 4) }
{
    let code = character as u32;
    if code < 0x80 {
        buffer[at] = code as u8;
        return at + 1;
    }
    if code < 0x800 {
        buffer[at] = (0xC0 + code / 64) as u8;
        buffer[at + 1] = (0x80 + code % 64) as u8;
        return at + 2;
    }
    if code < 0x1_0000 {
        buffer[at] = (0xE0 + code / 4096) as u8;
        buffer[at + 1] = (0x80 + code / 64 % 64) as u8;
        buffer[at + 2] = (0x80 + code % 64) as u8;
        return at + 3;
    }
    buffer[at] = (0xF0 + code / 262144) as u8;
    buffer[at + 1] = (0x80 + code / 4096 % 64) as u8;
    buffer[at + 2] = (0x80 + code / 64 % 64) as u8;
    buffer[at + 3] = (0x80 + code % 64) as u8;
    at + 4
}

/// Returns the length of the units from `from` on in UTF-8, or a few bytes less if they are invalid.
pub fn utf8_len_hint<U: Units>(units: U, from: usize) -> usize
    requires { from ≤ length (U.units units) }
    ensures { result ≤ 3 * length (U.units units) }
{
    let count = units.len();
    let mut room = 0;
    let mut at = from;
    while at < count {
        let end = count.min(at + 256);
        room += usize::from(block_len_hint(units, at, end));
        at = end;
    }
    room
}

/// Returns the same for at most 256 units, whose sum fits a `u16`.
#[inline]
fn block_len_hint<U: Units>(units: U, from: usize, end: usize) -> u16
    requires order { from ≤ end }
    requires within { end ≤ length (U.units units) }
    requires few { end ≤ from + 256 }
    ensures { result ≤ 3 * (end - from) }
{
    let mut room = 0;
    let mut at = from;
    while at < end {
        let unit = units.unit(at);
        let wide = u16::from(unit >= 0x80);
        let wider = u16::from(unit >= 0x800);
        let paired = u16::from(is_surrogate(unit));
        room += 1 + wide + wider - paired;
        at += 1;
    }
    room
}
