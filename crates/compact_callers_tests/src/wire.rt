//! Tests of the callers in `wire.rt`.

use compact_asserts::assert_that;
use compact_callers::wire::read_texts;
use compact_ext::wire::WireError;

/// The forms of `a`, of two invalid bytes, and one byte too few of that of `Hi`.
const CUT: [u8; 16] = [1, 0, 0, 0, 0x61, 2, 0, 0, 0, 0xC3, 0x28, 2, 0, 0, 0, 0x48];

#[test]
fn a_cut_after_an_invalid_text_is_reported(rt: HostRuntime) {
    let found = read_texts(rt.alloc(), CUT.as_slice());
    assert_that!(&rt, matches!(found, Err(WireError::UnexpectedEnd)));
}
