//! Wire forms, the names of outcomes, and the output of a writer.

use compact_asserts::assert_equal;
use compact_ext::wire::{WireError, write_wire};
use compact_str::CompactString;
use compact_testing::stopping_io::Narrow;
use std::alloc::Global;
use std::process::Abort;

/// Returns the name of a fault.
fn name_of(fault: &WireError) -> &'static str {
    match fault {
        WireError::TooLong => "too long",
        WireError::UnexpectedEnd => "end",
        WireError::Utf8 => "utf8",
        WireError::Io(_) => "io",
        WireError::WriteZero => "zero",
        WireError::Reserve(_) => "reserve",
    }
}

/// Returns the name of a call's fault, or `done`.
pub fn end_of<T>(ended: &Result<T, WireError>) -> &'static str {
    match ended {
        Ok(_) => "done",
        Err(fault) => name_of(fault),
    }
}

/// Asserts the outcome of a write, and the output.
pub fn assert_writes(
    rt: &impl Abort,
    text: &CompactString,
    mut writer: Narrow,
    end: &str,
    out: &[u8],
) {
    assert_equal!(rt, end_of(&write_wire(text, &mut writer)), end);
    assert_equal!(rt, writer.bytes(), out);
}

/// Builds a form: the length, then `count` times `letter`.
pub fn form_of(rt: &impl Abort, alloc: Global, len: u8, letter: &[u8], count: usize) -> Vec<u8> {
    let mut form = Vec::new(alloc);
    form.extend_from_slice(&[len, 0, 0, 0]).expect(rt, "memory");
    for _ in 0..count {
        form.extend_from_slice(letter).expect(rt, "memory");
    }
    form
}

/// Builds the form of `count` times `a`, at most 255.
pub fn form_of_ascii(rt: &impl Abort, alloc: Global, count: u8) -> Vec<u8> {
    form_of(rt, alloc, count, b"a", count as usize)
}
