//! Tests of the callers in `packed.rt`.

use compact_asserts::{assert_equal, assert_that};
use compact_callers::packed::{cleaned, have_same_bytes};
use compact_testing::values::short;

#[test]
fn spare_bytes_are_zeroed(rt: HostRuntime) {
    let mut row = [0xFF; 24];
    row[0] = 0x61;
    row[23] = 0xC1;
    let clean = cleaned(rt.alloc(), &row).expect(&rt, "bytes of a text");
    assert_equal!(
        &rt,
        &clean,
        b"a\0\0\0\0\0\0\0\0\0\0\0\0\0\0\0\0\0\0\0\0\0\0\xC1",
    );
}

#[test]
fn equal_keys_have_equal_bytes(rt: HostRuntime) {
    let alloc = rt.alloc();
    let key = short(alloc, "key");
    assert_that!(&rt, have_same_bytes(&key, &short(alloc, "key")));
}
