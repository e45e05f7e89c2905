//! Texts of every integer of 8 and 16 bits, checked by repeated division by ten.

use compact_asserts::assert_that;
use compact_ext::ToCompactString;
use std::alloc::Global;
use std::process::Abort;

/// Returns `true` if the text has the digits of repeated division by ten.
fn is_decimal(text: &str, magnitude: u16) -> bool {
    let mut left = magnitude;
    for byte in text.bytes().rev() {
        if u16::from(byte) != left % 10 + 48 {
            return false;
        }
        left /= 10;
    }
    left == 0 && (text == "0" || !text.starts_with('0'))
}

/// Asserts that the text of a number is its sign and the digits of its magnitude.
fn assert_shows<T: ToCompactString>(
    rt: &impl Abort,
    alloc: Global,
    n: T,
    magnitude: u16,
    sign: &str,
)
where
    T: Drop,
{
    let value = n.to_compact_string(alloc).expect(rt, "memory");
    let digits = value.as_str().strip_prefix(sign).expect(rt, "the sign");
    assert_that!(rt, is_decimal(digits, magnitude));
}

#[test]
fn every_integer_of_8_bits(rt: HostRuntime) {
    for n in 0..=u8::MAX {
        assert_shows(&rt, rt.alloc(), n, u16::from(n), "");
    }
    for n in i8::MIN..=i8::MAX {
        let sign = if n < 0 { "-" } else { "" };
        assert_shows(&rt, rt.alloc(), n, u16::from(n.unsigned_abs()), sign);
    }
}

#[test]
fn every_integer_of_16_bits(rt: HostRuntime) {
    for n in 0..=u16::MAX {
        assert_shows(&rt, rt.alloc(), n, n, "");
    }
    for n in i16::MIN..=i16::MAX {
        let sign = if n < 0 { "-" } else { "" };
        assert_shows(&rt, rt.alloc(), n, n.unsigned_abs(), sign);
    }
}
