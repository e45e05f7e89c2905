//! Decoding all inputs of a kind. The counts and checksums were computed by Python's decoder, which also writes one
//! U+FFFD for each maximal subpart, and again by Rust's.

use compact_asserts::{assert_equal, assert_that};
use compact_str::{CompactString, FromUtf8Error};
use std::alloc::Global;
use std::process::Abort;

/// The bytes at the bounds of the table of well-formed sequences, and some that are in no sequence.
const BOUNDS: [u8; 30] = [
    0x00, 0x41, 0x7F, 0x80, 0x8F, 0x90, 0x9F, 0xA0, 0xBF, 0xC0, 0xC1, 0xC2, 0xDF, 0xE0, 0xE1, 0xEC,
    0xED, 0xEE, 0xEF, 0xF0, 0xF1, 0xF3, 0xF4, 0xF5, 0xF7, 0xF8, 0xFB, 0xFC, 0xFE, 0xFF,
];

/// Mixes a number into a checksum.
fn mix(sum: u64, number: u64) -> u64 {
    sum.wrapping_mul(31).wrapping_add(number)
}

/// Returns 255 if the bytes are valid; else eight times the position of the error plus the length of the invalid
/// sequence, 0 for an unexpected end.
fn error_of(rt: &impl Abort, alloc: Global, bytes: &[u8]) -> u64 {
    match CompactString::from_utf8(alloc, bytes) {
        Ok(_) => 255,
        Err(
            FromUtf8Error::Utf8 {
                valid_up_to,
                error_len,
            },
        ) => (valid_up_to as u64)
            .wrapping_mul(8)
            .wrapping_add(error_len.unwrap_or(0) as u64),
        Err(FromUtf8Error::Reserve(_)) => {
            assert_that!(rt, false);
            0
        }
    }
}

/// Mixes the bytes and length of the lossy text into a checksum. Asserts that a text is inline just up to 24 bytes.
fn mix_lossy(rt: &impl Abort, alloc: Global, sum: u64, bytes: &[u8]) -> u64 {
    let text = CompactString::from_utf8_lossy(alloc, bytes).expect(rt, "memory");
    assert_that!(rt, text.is_heap_allocated() == (text.len() > 24));
    let mut sum = sum;
    for byte in text.as_bytes() {
        sum = mix(sum, u64::from(*byte));
    }
    mix(sum, text.len() as u64)
}

#[test]
fn all_inputs_of_two_bytes(rt: HostRuntime) {
    let rt = &rt;
    let alloc = rt.alloc();
    let mut texts = 0u32;
    let mut invalid_at_first = 0u32;
    let mut invalid_at_second = 0u32;
    let mut open_at_first = 0u32;
    let mut open_at_second = 0u32;
    let mut sum = 0;
    for first in 0..=255 {
        for second in 0..=255 {
            let error = error_of(rt, alloc, &[first, second]);
            match error {
                255 => texts = texts.wrapping_add(1),
                0 => open_at_first = open_at_first.wrapping_add(1),
                1..=7 => invalid_at_first = invalid_at_first.wrapping_add(1),
                8 => open_at_second = open_at_second.wrapping_add(1),
                _ => invalid_at_second = invalid_at_second.wrapping_add(1),
            }
            sum = mix_lossy(rt, alloc, mix(sum, error), &[first, second]);
        }
    }
    assert_equal!(rt, texts, 18304);
    assert_equal!(rt, invalid_at_first, 29632);
    assert_equal!(rt, invalid_at_second, 9856);
    assert_equal!(rt, open_at_first, 1216);
    assert_equal!(rt, open_at_second, 6528);
    assert_equal!(rt, sum, 0x0020_fb58_2b7c_9240);
}

#[test]
fn all_inputs_of_three_bytes_at_the_bounds(rt: HostRuntime) {
    let rt = &rt;
    let alloc = rt.alloc();
    let mut texts = 0u32;
    let mut sum = 0;
    for first in BOUNDS {
        for second in BOUNDS {
            for third in BOUNDS {
                let error = error_of(rt, alloc, &[first, second, third]);
                if error == 255 {
                    texts = texts.wrapping_add(1);
                }
                sum = mix_lossy(rt, alloc, mix(sum, error), &[first, second, third]);
            }
        }
    }
    assert_equal!(rt, texts, 279);
    assert_equal!(rt, sum, 0xb65d_1f78_3995_512c);
}

#[test]
fn all_pairs_of_units_at_the_bounds(rt: HostRuntime) {
    let units = [0xD7FFu16, 0xD800, 0xDBFF, 0xDC00, 0xDFFF, 0xE000];
    let mut texts = 0u32;
    for first in units {
        for second in units {
            if CompactString::from_utf16(rt.alloc(), &[first, second]).is_ok() {
                texts = texts.wrapping_add(1);
            }
        }
    }
    assert_equal!(&rt, texts, 8);
}

/// An xorshift generator.
#[derive(Drop)]
struct Generator {
    state: u64,
}

impl Generator {
    /// Draws a number below `limit`.
    fn below(&mut self, limit: u64) -> u64 {
        self.state ^= self.state << 13;
        self.state ^= self.state >> 7;
        self.state ^= self.state << 17;
        (self.state >> 32).wrapping_mul(limit) >> 32
    }

    /// Draws a byte at the bounds, or one time in four an ASCII byte.
    fn byte(&mut self) -> u8 {
        if self.below(4) == 0 {
            ((self.below(26) % 26) as u8).wrapping_add(b'A')
        } else {
            BOUNDS[self.below(30) as usize % 30]
        }
    }
}

/// Returns the checksum of the lossy texts of the next hundred invalid inputs, of 1 to 40 bytes.
fn hundred(rt: &impl Abort, alloc: Global, generator: &mut Generator) -> u64 {
    let mut sum = 0;
    let mut invalid = 0u32;
    for _ in 0..1000 {
        if invalid == 100 {
            return sum;
        }
        let mut row = [0; 40];
        let len = generator.below(40) as usize % 40 + 1;
        for byte in row.iter_mut().take(len) {
            *byte = generator.byte();
        }
        if error_of(rt, alloc, &row[..len]) != 255 {
            sum = mix_lossy(rt, alloc, sum, &row[..len]);
            invalid = invalid.wrapping_add(1);
        }
    }
    0
}

#[test]
fn two_thousand_invalid_inputs(rt: HostRuntime) {
    let mut generator = Generator {
        state: 0x9e37_79b9_7f4a_7c15,
    };
    for sum in [
        0x9a89_108c_868e_c95a,
        0xcb4a_a6b2_4bc4_a833,
        0x5c80_ff3a_7eaf_96db,
        0xeb64_ef6e_8418_4ef4,
        0x2a70_b830_c84e_854f,
        0xa2ac_330b_6b2c_ac95,
        0xfb82_0f92_f859_523b,
        0xeabf_6d7a_fed2_51ee,
        0x214f_443e_b3ea_5c6c,
        0x99e7_dae3_73eb_bdc5,
        0x5884_1be5_17ef_d110,
        0xdcb5_16a6_da5c_ccc0,
        0x109b_4a72_1b45_b43b,
        0xa060_4fba_9d04_bb79,
        0x2128_65ff_608f_adec,
        0xc233_b999_d15a_0aec,
        0x45e2_a981_b267_65bc,
        0x78eb_0a7e_5572_0e91,
        0xbd68_8240_e592_a257,
        0x830a_2d9a_d257_5f05,
    ] {
        assert_equal!(&rt, hundred(&rt, rt.alloc(), &mut generator), sum);
    }
}
