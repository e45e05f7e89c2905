//! Decoding bytes and UTF-16 units. Texts and errors are those of the Unicode Standard, worked out by hand.

use crate::results::{assert_made_inline, assert_shown};
use compact_asserts::{assert_equal, assert_that, that_for};
use compact_str::{CompactString, FromUtf8Error, FromUtf16Error, ReserveError, Utf16Error};
use compact_testing::values::ascii_text;
use std::alloc::Global;
use std::process::Abort;

/// Asserts the position of the error in invalid bytes, and their lossy text.
fn assert_invalid(
    rt: &impl Abort,
    alloc: Global,
    bytes: &[u8],
    valid_up_to: usize,
    error_len: Option<usize>,
    text: &str,
) {
    let error = CompactString::from_utf8(alloc, bytes).err();
    let wanted = FromUtf8Error::Utf8 {
        valid_up_to,
        error_len,
    };
    that_for(bytes, error == Some(wanted)).expect(rt, "it holds");
    let lossy = CompactString::from_utf8_lossy(alloc, bytes).expect(rt, "memory");
    assert_equal!(rt, lossy.as_str(), text);
    assert_that!(rt, lossy.is_heap_allocated() == (text.len() > 24));
}

#[test]
fn invalid_bytes_are_reported_and_replaced(rt: HostRuntime) {
    for (bytes, valid_up_to, error_len, text) in [
        (
            b"\0\0\0\0\0\0\0\0\0\0\0\0\0\0\0\0\0\0\0\0\0\0\0\xC0".as_slice(),
            23,
            Some(1),
            "\0\0\0\0\0\0\0\0\0\0\0\0\0\0\0\0\0\0\0\0\0\0\0\u{FFFD}",
        ),
        (b"\xF0\x9F".as_slice(), 0, None, "\u{FFFD}"),
        (
            b"\xF0\x9F\xC8\x84".as_slice(),
            0,
            Some(2),
            "\u{FFFD}\u{204}",
        ),
        (
            b"\xED\xA0\x80".as_slice(),
            0,
            Some(1),
            "\u{FFFD}\u{FFFD}\u{FFFD}",
        ),
        (b"\xC0\x80".as_slice(), 0, Some(1), "\u{FFFD}\u{FFFD}"),
        (
            b"\xF4\x90\x80\x80".as_slice(),
            0,
            Some(1),
            "\u{FFFD}\u{FFFD}\u{FFFD}\u{FFFD}",
        ),
        (b"\xE1\x80\x41".as_slice(), 0, Some(2), "\u{FFFD}A"),
        (b"\x61\xE2\x82".as_slice(), 1, None, "a\u{FFFD}"),
        (
            b"\xE0\x80\x80".as_slice(),
            0,
            Some(1),
            "\u{FFFD}\u{FFFD}\u{FFFD}",
        ),
        (b"\xF0\x9F\x91\x41".as_slice(), 0, Some(3), "\u{FFFD}A"),
        (b"\xE2\x82\xAC\xFF".as_slice(), 3, Some(1), "€\u{FFFD}"),
    ] {
        assert_invalid(&rt, rt.alloc(), bytes, valid_up_to, error_len, text);
    }
}

/// The Standard's examples (3.9, Tables 3-8 to 3-11): forms that are too long, surrogates, other bytes that begin no
/// sequence, and sequences cut short.
#[test]
fn the_examples_of_the_standard(rt: HostRuntime) {
    for (bytes, error_len, text) in [
        (
            b"\xC0\xAF\xE0\x80\xBF\xF0\x81\x82\x41".as_slice(),
            1,
            "\u{FFFD}\u{FFFD}\u{FFFD}\u{FFFD}\u{FFFD}\u{FFFD}\u{FFFD}\u{FFFD}A",
        ),
        (
            b"\xED\xA0\x80\xED\xBF\xBF\xED\xAF\x41".as_slice(),
            1,
            "\u{FFFD}\u{FFFD}\u{FFFD}\u{FFFD}\u{FFFD}\u{FFFD}\u{FFFD}\u{FFFD}A",
        ),
        (
            b"\xF4\x91\x92\x93\xFF\x41\x80\xBF\x42".as_slice(),
            1,
            "\u{FFFD}\u{FFFD}\u{FFFD}\u{FFFD}\u{FFFD}A\u{FFFD}\u{FFFD}B",
        ),
        (
            b"\xE1\x80\xE2\xF0\x91\x92\xF1\xBF\x41".as_slice(),
            2,
            "\u{FFFD}\u{FFFD}\u{FFFD}\u{FFFD}A",
        ),
    ] {
        assert_invalid(&rt, rt.alloc(), bytes, 0, Some(error_len), text);
    }
}

/// Asserts a heap text of 30 `a`s.
fn assert_ascii<E: Drop>(rt: &impl Abort, made: Result<CompactString, E>) {
    let made = made.ok().expect(rt, "a text");
    assert_equal!(rt, made.as_str(), ascii_text(30));
    assert_that!(rt, made.is_heap_allocated());
}

/// Asserts that each decoder reads its form of this short text.
fn assert_forms(
    rt: &impl Abort,
    alloc: Global,
    text: &str,
    units: &[u16],
    little: &[u8],
    big: &[u8],
) {
    let bytes = text.as_bytes();
    assert_made_inline(rt, CompactString::from_utf8(alloc, bytes), text);
    assert_made_inline(rt, CompactString::from_utf8_lossy(alloc, bytes), text);
    assert_made_inline(rt, CompactString::from_utf16(alloc, units), text);
    assert_made_inline(rt, CompactString::from_utf16_lossy(alloc, units), text);
    assert_made_inline(rt, CompactString::from_utf16le(alloc, little), text);
    assert_made_inline(rt, CompactString::from_utf16le_lossy(alloc, little), text);
    assert_made_inline(rt, CompactString::from_utf16be(alloc, big), text);
    assert_made_inline(rt, CompactString::from_utf16be_lossy(alloc, big), text);
}

#[test]
fn each_form_of_a_text_is_decoded(rt: HostRuntime) {
    for (text, units, little, big) in [
        ("", [].as_slice(), b"".as_slice(), b"".as_slice()),
        (
            "é",
            [0xE9].as_slice(),
            b"\xE9\0".as_slice(),
            b"\0\xE9".as_slice(),
        ),
        (
            "Aä",
            [0x41, 0xE4].as_slice(),
            b"A\0\xE4\0".as_slice(),
            b"\0A\0\xE4".as_slice(),
        ),
        (
            "𝄞",
            [0xD834, 0xDD1E].as_slice(),
            b"\x34\xD8\x1E\xDD".as_slice(),
            b"\xD8\x34\xDD\x1E".as_slice(),
        ),
    ] {
        assert_forms(&rt, rt.alloc(), text, units, little, big);
    }
}

/// Asserts that units are invalid, and their lossy text.
fn assert_unpaired(rt: &impl Abort, alloc: Global, units: &[u16], text: &str) {
    let strict = CompactString::from_utf16(alloc, units);
    assert_that!(rt, matches!(strict, Err(FromUtf16Error::Utf16(_))));
    let lossy = CompactString::from_utf16_lossy(alloc, units).expect(rt, "memory");
    assert_equal!(rt, lossy.as_str(), text);
}

#[test]
fn unpaired_surrogates_are_reported_and_replaced(rt: HostRuntime) {
    for (units, text) in [
        (
            [0xD834, 0xDD1E, 0x6D, 0x75, 0x73, 0xDD1E, 0x69, 0x63, 0xD834].as_slice(),
            "𝄞mus\u{FFFD}ic\u{FFFD}",
        ),
        ([0xDC00, 0xD800].as_slice(), "\u{FFFD}\u{FFFD}"),
        ([0xD800, 0xD834, 0xDD1E].as_slice(), "\u{FFFD}\u{1D11E}"),
    ] {
        assert_unpaired(&rt, rt.alloc(), units, text);
    }
}

#[test]
fn units_of_a_text_are_decoded(rt: HostRuntime) {
    let alloc = rt.alloc();
    assert_made_inline(
        &rt,
        CompactString::from_utf16(alloc, &[0xD834, 0xDD1E]),
        "𝄞",
    );
    assert_made_inline(
        &rt,
        CompactString::from_utf16(alloc, &[0x20AC; 8]),
        "€€€€€€€€",
    );
    assert_ascii(&rt, CompactString::from_utf16(alloc, &[0x61; 30]));
}

/// The first and the last units of each width in UTF-8, and unpaired surrogates, with the characters that they become.
const RUNS: [(u16, char); 10] = [
    (0, '\0'),
    (0x7F, '\u{7F}'),
    (0x80, '\u{80}'),
    (0x7FF, '\u{7FF}'),
    (0x800, '\u{800}'),
    (0xD7FF, '\u{D7FF}'),
    (0xD834, '\u{FFFD}'),
    (0xE000, '\u{E000}'),
    (0xDC00, '\u{FFFD}'),
    (0xFFFF, '\u{FFFF}'),
];

/// Asserts that each lossy decoder reads runs of `len` units, with U+1D11E before each.
fn assert_runs(rt: &impl Abort, alloc: Global, len: usize) {
    let mut text = String::new(alloc);
    let mut units = Vec::new(alloc);
    for (unit, character) in RUNS {
        text.push('𝄞').expect(rt, "memory");
        units
            .extend_from_slice(&[0xD834, 0xDD1E])
            .expect(rt, "memory");
        for _ in 0..len {
            text.push(character).expect(rt, "memory");
            units.push(unit).expect(rt, "memory");
        }
    }
    let mut little = Vec::new(alloc);
    let mut big = Vec::new(alloc);
    for unit in &units {
        little
            .extend_from_slice(&unit.to_le_bytes())
            .expect(rt, "memory");
        big.extend_from_slice(&unit.to_be_bytes())
            .expect(rt, "memory");
    }
    for made in [
        CompactString::from_utf16_lossy(alloc, units.as_slice()),
        CompactString::from_utf16le_lossy(alloc, little.as_slice()),
        CompactString::from_utf16be_lossy(alloc, big.as_slice()),
    ] {
        let made = made.expect(rt, "memory");
        assert_that!(rt, made.as_str() == text.as_str());
    }
}

#[test]
fn runs_of_units_are_decoded(rt: HostRuntime) {
    for len in 0..40 {
        assert_runs(&rt, rt.alloc(), len);
    }
}

/// Asserts that units are invalid.
fn assert_invalid_units(rt: &impl Abort, made: Result<CompactString, FromUtf16Error>) {
    assert_that!(rt, matches!(made, Err(FromUtf16Error::Utf16(_))));
}

#[test]
fn invalid_bytes_of_units_are_reported_and_replaced(rt: HostRuntime) {
    let rt = &rt;
    let alloc = rt.alloc();
    for (odd, text) in [
        (b"\x3D\xD8\x6F".as_slice(), "\u{FFFD}\u{FFFD}"),
        (b"A\0B".as_slice(), "A\u{FFFD}"),
    ] {
        assert_invalid_units(rt, CompactString::from_utf16le(alloc, odd));
        assert_made_inline(rt, CompactString::from_utf16le_lossy(alloc, odd), text);
    }
    let unpaired = b"\xD8\x3D\xDC\x6F\x20\x0D\x26\x40\xDE\x0F";
    assert_invalid_units(rt, CompactString::from_utf16be(alloc, unpaired));
    let text = "\u{1F46F}\u{200D}\u{2640}\u{FFFD}";
    assert_made_inline(rt, CompactString::from_utf16be_lossy(alloc, unpaired), text);
}

#[test]
fn errors_have_these_texts(rt: HostRuntime) {
    let alloc = rt.alloc();
    let invalid = FromUtf8Error::Utf8 {
        valid_up_to: 0,
        error_len: None,
    };
    assert_shown(&rt, format!(in alloc; "{invalid}"), "invalid utf-8");
    let unpaired = FromUtf16Error::Utf16(Utf16Error);
    let text = "invalid utf-16: lone surrogate found";
    assert_shown(&rt, format!(in alloc; "{unpaired}"), text);
}

#[test]
fn failed_allocations_have_this_text(rt: HostRuntime) {
    let alloc = rt.alloc();
    let text = "Cannot allocate memory to hold CompactString";
    let refused = FromUtf8Error::from(ReserveError);
    assert_that!(&rt, refused == FromUtf8Error::Reserve(ReserveError));
    assert_shown(&rt, format!(in alloc; "{refused}"), text);
    let refused = FromUtf16Error::from(ReserveError);
    assert_shown(&rt, format!(in alloc; "{refused}"), text);
}
