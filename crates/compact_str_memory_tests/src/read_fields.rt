//! The memory that serde takes to read a record of short texts: only the reader's, since a record that borrows its
//! texts takes as much.

use compact_asserts::assert_equal;
use compact_str::CompactString;
use compact_testing::memory::take_all;
use serde::Deserialize;
use std::alloc::{AllocError, Global};
use std::marker::PhantomData;
use std::process::Abort;

/// Two texts, each of which would be a `String` buffer, both of one size.
const RECORD: &str = r#"{"a":"zoë","b":"of 24 bytes and no more."}"#;

/// A record of two texts of one type. It names the input's lifetime so that only `Deserialize` is derived; `from_str`
/// does not need `DeserializeOwned`.
#[derive(Drop, Deserialize)]
struct Record<'de, T> {
    #[serde(skip)]
    input: PhantomData<&'de ()>,
    a: T,
    b: T,
}

/// Allocates `count` blocks of each size of small allocations. Callers keep the list, so that it frees no room.
fn blocks_of_each_size(alloc: Global, count: usize) -> Result<Vec<Vec<u8>>, AllocError> {
    let mut blocks = Vec::with_capacity(alloc, 1000)?;
    for step in 1..60usize {
        for _ in 0..count {
            blocks.push(Vec::with_capacity(alloc, step.saturating_mul(16).saturating_add(8))?)?;
        }
    }
    Ok(blocks)
}

/// Returns `true` if the borrowing record is read.
fn reads_borrowed(alloc: Global) -> bool {
    let read: Result<Record<'_, &str>, serde_json::Error> = serde_json::from_str(alloc, RECORD);
    match read {
        Ok(it) => [it.a, it.b] == ["zoë", "of 24 bytes and no more."],
        Err(_) => false,
    }
}

/// Returns `true` if the record of values is read.
fn reads_values(alloc: Global) -> bool {
    let read: Result<Record<'_, CompactString>, serde_json::Error> = serde_json::from_str(
        alloc, RECORD,
    );
    match read {
        Ok(it) => it.a.len() == 4 && it.b.len() == 24,
        Err(_) => false,
    }
}

/// Returns `true` if the record of strings is read.
fn reads_strings(alloc: Global) -> bool {
    let read: Result<Record<'_, String>, serde_json::Error> = serde_json::from_str(alloc, RECORD);
    match read {
        Ok(it) => it.a.len() == 4 && it.b.len() == 24,
        Err(_) => false,
    }
}

/// Returns which of the three are read when only `count` blocks of each size are free.
fn are_read(rt: &impl Abort, alloc: Global, count: usize) -> [bool; 3] {
    let mut blocks = blocks_of_each_size(alloc, count).expect(rt, "memory");
    let hog = take_all(alloc).expect(rt, "room for the list of blocks");
    blocks.clear();
    let read = [
        reads_borrowed(alloc),
        reads_values(alloc),
        reads_strings(alloc),
    ];
    drop(hog);
    read
}

#[test]
fn with_no_memory_no_record_is_read(rt: HostRuntime) {
    assert_equal!(&rt, are_read(&rt, rt.alloc(), 0), [false, false, false]);
}

#[test]
fn with_a_block_of_each_size_all_but_strings_are_read(rt: HostRuntime) {
    assert_equal!(&rt, are_read(&rt, rt.alloc(), 1), [true, true, false]);
}
