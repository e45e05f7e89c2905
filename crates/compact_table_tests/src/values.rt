//! Values that calls are tried on, and what is seen of a value.
//!
//! No function here has a clause, so other proofs know nothing of the values they look at.

use crate::memory::{Allocation, Ration};
use compact_str::CompactString;
use compact_testing::values::{append, place_of, string_with_room, with_room};
use std::alloc::Global;

/// Returns a range of the ASCII letters, lowercase first, followed by the ten digits.
pub fn ascii_text(from: usize, to: usize) -> &'static str {
    const LETTERS: &str = "abcdefghijklmnopqrstuvwxyzABCDEFGHIJKLMNOPQRSTUVWXYZ0123456789";
    LETTERS.get(from..to).unwrap_or("")
}

/// Returns 40 digits, from 0 to 9 four times.
pub fn digits() -> &'static str {
    "0123456789012345678901234567890123456789"
}

/// A value that a call is tried on.
#[derive(Clone, Copy)]
pub enum Start<'a> {
    /// A value given in full.
    Seen(Seen<'a>),
    /// `abc`.
    Inline,
    /// 24 letters, inline.
    FullInline,
    /// 30 letters, static.
    Static,
    /// 30 letters on the heap, with capacity 32.
    Heap,
    /// 32 letters on the heap, with capacity 32.
    FullHeap,
    /// 30 letters on the heap, cut from 48.
    Shortened,
    /// `abc` on the heap, with capacity 32.
    ShortHeap,
    /// `abc` static, cut from 30 letters.
    ShortStatic,
    /// The empty text on the heap, with capacity 100.
    EmptyHeap,
}

impl<'a> Start<'a> {
    /// Returns the value of a name.
    pub fn named(name: &str) -> Option<Start<'a>> {
        match name {
            "inline" => Some(Start::Inline),
            "full inline" => Some(Start::FullInline),
            "static" => Some(Start::Static),
            "heap" => Some(Start::Heap),
            "full heap" => Some(Start::FullHeap),
            "shortened" => Some(Start::Shortened),
            "short heap" => Some(Start::ShortHeap),
            "short static" => Some(Start::ShortStatic),
            "empty heap" => Some(Start::EmptyHeap),
            _ => None,
        }
    }

    /// Makes the value, granting its allocation.
    pub fn make(self, ration: &mut Ration, alloc: Global) -> Option<CompactString> {
        match self {
            Start::Seen(seen) => made(seen, ration, alloc),
            Start::Inline => copied(alloc, ascii_text(0, 3)),
            Start::FullInline => copied(alloc, ascii_text(0, 24)),
            Start::Static => Some(lasting(alloc)),
            Start::Heap => granted(ration, alloc, 32, 30),
            Start::FullHeap => granted(ration, alloc, 32, 32),
            Start::Shortened => granted_and_cut(ration, alloc, 48, 48, 30),
            Start::ShortHeap => granted_and_cut(ration, alloc, 32, 30, 3),
            Start::ShortStatic => Some(cut(lasting(alloc), 3)),
            Start::EmptyHeap => room(ration, alloc, 100),
        }
    }

    /// Returns what is seen of it.
    pub fn seen(self) -> Seen<'a> {
        match self {
            Start::Seen(seen) => seen,
            Start::Inline => inline(ascii_text(0, 3)),
            Start::FullInline => inline(ascii_text(0, 24)),
            Start::Static => fixed(ascii_text(0, 30)),
            Start::Heap => heap(32, ascii_text(0, 30)),
            Start::FullHeap => heap(32, ascii_text(0, 32)),
            Start::Shortened => heap(48, ascii_text(0, 30)),
            Start::ShortHeap => heap(32, ascii_text(0, 3)),
            Start::ShortStatic => fixed(ascii_text(0, 3)),
            Start::EmptyHeap => heap(100, ""),
        }
    }
}

/// Makes a value that looks so. A static one is a prefix of the 62 letters and digits.
fn made(seen: Seen<'_>, ration: &mut Ration, alloc: Global) -> Option<CompactString> {
    match seen.place {
        "heap" => in_buffer(ration, alloc, seen.capacity?, seen.text),
        "static" => Some(cut(
            CompactString::const_new(alloc, ascii_text(0, 62)),
            seen.text.len(),
        )),
        _ => copied(alloc, seen.text),
    }
}

/// Makes a text in a buffer of just that capacity, after filling the rest with `z` and cutting it.
fn in_buffer(
    ration: &mut Ration,
    alloc: Global,
    capacity: usize,
    text: &str,
) -> Option<CompactString> {
    ration.grant(Allocation::New(capacity));
    let mut buffer = string_with_room(alloc, capacity, text).ok()?;
    if !fill(&mut buffer, capacity) {
        return None;
    }
    Some(cut(CompactString::from_string_buffer(buffer), text.len()))
}

/// Pushes `z` until a buffer has `len` bytes.
fn fill(buffer: &mut String, len: usize) -> bool {
    let mut is_filled = true;
    for _ in buffer.len()..len {
        is_filled &= buffer.push('z').is_ok();
    }
    is_filled
}

/// Makes `len` letters on the heap, granting the allocation.
fn granted(
    ration: &mut Ration,
    alloc: Global,
    allocation: usize,
    len: usize,
) -> Option<CompactString> {
    ration.grant(Allocation::New(allocation));
    copied(alloc, ascii_text(0, len))
}

/// The same, keeping the first `kept` bytes.
fn granted_and_cut(
    ration: &mut Ration,
    alloc: Global,
    allocation: usize,
    len: usize,
    kept: usize,
) -> Option<CompactString> {
    Some(cut(granted(ration, alloc, allocation, len)?, kept))
}

/// Makes an empty value with this capacity, granting its allocation.
fn room(ration: &mut Ration, alloc: Global, capacity: usize) -> Option<CompactString> {
    ration.grant(Allocation::New(capacity));
    with_room(alloc, capacity).ok()
}

/// Makes a static value of 30 letters.
fn lasting(alloc: Global) -> CompactString {
    CompactString::const_new(alloc, ascii_text(0, 30))
}

/// Keeps the first `len` bytes of a value.
fn cut(value: CompactString, len: usize) -> CompactString {
    let mut value = value;
    if value.is_char_boundary(len) {
        value.truncate(len);
    }
    value
}

/// Copies `text`.
pub fn copied(alloc: Global, text: &str) -> Option<CompactString> {
    CompactString::new(alloc, text).ok()
}

/// Makes a named source for other values: `lasting` is 30 letters, static; `digits` 40 digits, static; `long` the same
/// on the heap; `fresh` 30 letters on the heap; `shortened` the same, where 40 digits were; and `emptied` the empty
/// text there. Any other word is copied.
pub fn source(alloc: Global, name: &str) -> Option<CompactString> {
    match name {
        "lasting" => Some(CompactString::const_new(alloc, ascii_text(20, 50))),
        "digits" => Some(CompactString::const_new(alloc, digits())),
        "long" => copied(alloc, digits()),
        "fresh" => copied(alloc, ascii_text(20, 50)),
        "shortened" => shortened(alloc, ascii_text(20, 50)),
        "emptied" => shortened(alloc, ""),
        text => copied(alloc, text),
    }
}

fn shortened(alloc: Global, text: &str) -> Option<CompactString> {
    let mut value = copied(alloc, digits())?;
    value.clear();
    if append(&mut value, text).is_err() {
        return None;
    }
    Some(value)
}

/// Returns what is seen of a source.
pub fn seen_of_source(name: &str) -> Seen<'_> {
    match seen_of_name(name) {
        Some(seen) => seen,
        None => seen_of_copy(name),
    }
}

fn seen_of_name(name: &str) -> Option<Seen<'static>> {
    match name {
        "lasting" => Some(fixed(ascii_text(20, 50))),
        "digits" => Some(fixed(digits())),
        "long" => Some(heap(40, digits())),
        "fresh" => Some(heap(32, ascii_text(20, 50))),
        "shortened" => Some(heap(40, ascii_text(20, 50))),
        "emptied" => Some(heap(40, "")),
        _ => None,
    }
}

/// Returns what is seen of a copied text.
fn seen_of_copy(text: &str) -> Seen<'_> {
    if text.len() > 24 {
        heap(text.len().max(32), text)
    } else {
        inline(text)
    }
}

/// Place, capacity and text of a value.
#[derive(Clone, Copy)]
pub struct Seen<'a> {
    pub place: &'a str,
    /// `None` allows any capacity.
    pub capacity: Option<usize>,
    pub text: &'a str,
}

/// A text inline.
pub fn inline(text: &str) -> Seen<'_> {
    Seen {
        place: "inline",
        capacity: Some(24),
        text,
    }
}

/// A static text.
pub fn fixed(text: &str) -> Seen<'_> {
    Seen {
        place: "static",
        capacity: Some(text.len()),
        text,
    }
}

/// A text on the heap, with this capacity.
pub fn heap(capacity: usize, text: &str) -> Seen<'_> {
    Seen {
        place: "heap",
        capacity: Some(capacity),
        text,
    }
}

/// A text on the heap, with any sufficient capacity.
pub fn fitted(text: &str) -> Seen<'_> {
    Seen {
        place: "heap",
        capacity: None,
        text,
    }
}

/// Returns `true` if a value has this place, capacity and text, and, if inline, the right packed bytes.
pub fn is_seen(value: &CompactString, seen: Seen<'_>) -> bool {
    let has_room = match seen.capacity {
        Some(capacity) => value.capacity() == capacity,
        None => value.capacity() >= value.len(),
    };
    has_room && place_of(value) == seen.place && value.as_str() == seen.text && is_packed(value)
}

/// Returns `true` if an inline value's 24 packed bytes are its text and length and are read as that text, or if
/// another value has none.
fn is_packed(value: &CompactString) -> bool {
    match value.packed() {
        Some(bytes) => is_packed_form_of(value.allocator(), &bytes, value.as_str()),
        None => place_of(value) != "inline",
    }
}

/// Returns `true` if 24 bytes begin with a text, end with its length, and are read as that text.
fn is_packed_form_of(alloc: Global, bytes: &[u8; 24], text: &str) -> bool {
    let ends_so = text.len() == 24 || usize::from(bytes[23]) == text.len().saturating_add(192);
    let is_read = match CompactString::from_packed(alloc, bytes) {
        Some(read) => read.as_str() == text,
        None => false,
    };
    ends_so && is_read && bytes.starts_with(text.as_bytes())
}
