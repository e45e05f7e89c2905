//! Taking all memory and freeing it.

use compact_asserts::assert_that;
use compact_testing::memory::take_all;
use std::alloc::{AllocError, Global};

/// Returns `true` if one byte can be allocated.
fn has_memory(alloc: Global) -> bool {
    let byte: Result<Vec<u8>, AllocError> = Vec::with_capacity(alloc, 1);
    byte.is_ok()
}

#[test]
fn every_allocation_fails_until_the_hog_is_dropped(rt: HostRuntime) {
    let rt = &rt;
    let alloc = rt.alloc();
    let hog = take_all(alloc).expect(rt, "room for the list of blocks");
    assert_that!(rt, hog.block_count() > 0);
    assert_that!(rt, !has_memory(alloc));
    drop(hog);
    assert_that!(rt, has_memory(alloc));
}
