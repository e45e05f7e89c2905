//! Reading a wire form.
ghost use Rattle.std.specs.Prelude.{◌≡◌, ◌+◌, ◌^◌, ◌<◌, ◌≤◌, length, take, IfOk, IfErr, OnOk, vec_len, IsUtf8};
ghost use Rattle.std.specs.Bool.{OnTrue, OnFalse};
ghost use Rattle.std.specs.Int.{w32, to_le_bytes};
ghost use Rattle.std.specs.Vec.{vec_capacity};
ghost use Rattle.std.specs.Io.KnownBytes.{Consumes};
ghost use Rattle.compact_str.specs.Text.{IsText, size, utf8};
ghost use Rattle.compact_repr.specs.Packed.{packed_len};
ghost use Rattle.compact_str.specs.Words.{INLINE_CAPACITY};
ghost use Rattle.compact_str.specs.Capacity.{inline_placement, heap_placement, from_string_placement};
ghost use Rattle.compact_ext.specs.declared.wire.WireError.TheVariants.{Utf8 as utf8_fault};
ghost use Rattle.compact_ext.specs.Wire.{wire, HasForm, ReadFails, ReadsBack, StopsBelow, TextFails, next_room};

use super::WireError;
use compact_codec::utf8::validate;
use compact_str::{CompactString, INLINE_CAPACITY, ReserveError};
use std::alloc::Global;
use std::io::Read;

// The most that is allocated before any byte of the text has come.
const FIRST_ROOM: usize = 1 << 20;

/// Reads a string from its wire form: its length in bytes as four bytes, the low one first, and then its bytes. The
/// result is inline up to 24 bytes, else on the heap with the exact capacity.
///
/// Allocates at most 1 MiB at first, whatever the length, and doubles that only when it is full.
///
/// # Errors
///
/// - `UnexpectedEnd` if the input ends inside the form. All of it has been consumed.
/// - `Io` if the reader fails. Part of the form has been consumed.
/// - `Reserve` if allocation fails, past 24 bytes. Part of the form has been consumed, at least its length.
/// - `Utf8` if the text is not valid UTF-8. Exactly its form has been consumed.
///
/// No clause says when it succeeds, since any reader may fail.
///
/// # Examples
///
/// ```
/// let mut input = b"\x02\0\0\0HiJ".as_slice();
/// let text = read_wire(alloc, &mut input)?;
/// assert_eq!(rt; text.as_str(), "Hi");
/// assert_eq!(rt; input, b"J".as_slice());
/// ```
#[inline]
#[tactic(auto, using(compact_text::proofs::TextFacts::text_facts, crate::proofs::Facts::read_facts))]
pub fn read_wire<R: Read>(alloc: Global, reader: &mut R) -> Result<CompactString, WireError>
    // Consumes just the form, and returns its text.
    ensures consumed { IfOk result (λ v.
        Consumes (R.remaining reader.old) (R.remaining reader.new) (wire v.text)) }
    ensures fits { IfOk result (λ v. HasForm v.text) }
    ensures place { IfOk result
        (λ v. v.placement ≡ from_string_placement v.text (size v.text)) }

    // If the reader begins with a form, fails only if the reader or an allocation does. Every error
    // comes with what was consumed.
    ensures back { ReadsBack (R.remaining reader.old) (R.remaining reader.new) result }
    ensures err { IfErr result (λ e.
        ReadFails (R.remaining reader.old) (R.remaining reader.new) e) }
{
    let len = read_len(reader)? as usize;
    if len <= INLINE_CAPACITY {
        read_short(alloc, len, reader)
    } else {
        read_long(alloc, len, reader)
    }
}

/// Reads the length.
#[inline]
fn read_len<R: Read>(reader: &mut R) -> Result<u32, WireError>
    ensures consumed { IfOk result (λ len.
        Consumes (R.remaining reader.old) (R.remaining reader.new) (to_le_bytes w32 len)) }
    ensures err { IfErr result (λ e.
        ReadFails (R.remaining reader.old) (R.remaining reader.new) e) }
{
    let mut head = [0u8; 4];
    read_full(&mut head, reader)?;
    Ok(number_of(head))
}

/// Decodes the length, the low byte first.
#[inline]
pub(super) fn number_of(bytes: [u8; 4]) -> u32
    ensures { to_le_bytes w32 result ≡ bytes }
{
    u32::from_le_bytes(bytes)
}

/// Reads a text of `len` bytes by way of an array.
#[inline]
fn read_short<R: Read>(
    alloc: Global,
    len: usize,
    reader: &mut R,
) -> Result<CompactString, WireError>
    requires { len ≤ INLINE_CAPACITY }
    ensures consumed { IfOk result (λ v.
        Consumes (R.remaining reader.old) (R.remaining reader.new) (utf8 v.text)) }
    ensures text { IfOk result (λ v. IsText v.text) }
    ensures len { IfOk result (λ v. size v.text ≡ len) }
    ensures place { IfOk result (λ v. v.placement ≡ inline_placement) }
    ensures err { IfErr result (λ e.
        TextFails (R.remaining reader.old) (R.remaining reader.new) len e) }
{
    let mut room = [0u8; INLINE_CAPACITY];
    read_full(&mut room[..len], reader)?;
    packed(alloc, &mut room, len)
}

/// Returns an inline string of the first `len` bytes of `room`. Writing the length into its last byte makes `room` the
/// packed form, so this never allocates.
#[inline]
#[tactic(auto, using(compact_text::proofs::TextFacts::text_facts, crate::proofs::Facts::read_facts))]
fn packed(alloc: Global, room: &mut [u8; 24], len: usize) -> Result<CompactString, WireError>
    requires { len ≤ INLINE_CAPACITY }
    ensures bytes { IfOk result (λ v. utf8 v.text ≡ take len room.old) }
    ensures text { IfOk result (λ v. IsText v.text) }
    ensures len { IfOk result (λ v. size v.text ≡ len) }
    ensures place { IfOk result (λ v. v.placement ≡ inline_placement) }
    ensures err { IfErr result (λ e. (e ≡ utf8_fault) × ¬ IsUtf8 (take len room.old)) }
{
    if !write_len_byte(room, len) {
        return Err(WireError::Utf8);
    }
    match CompactString::from_packed(alloc, room) {
        Some(value) => Ok(value),
        None => Err(WireError::Utf8),
    }
}

/// Writes the length into the last byte. Returns `false` if the 24th byte is above 191: that is not valid UTF-8.
#[inline(always)]
fn write_len_byte(room: &mut [u8; 24], len: usize) -> bool
    requires { len ≤ INLINE_CAPACITY }
    ensures written { OnTrue result (packed_len room.new ≡ len) }
    ensures front { OnTrue result (take len room.new ≡ take len room.old) }
    ensures invalid { OnFalse result (¬ IsUtf8 (take len room.old)) }
{
    if len < INLINE_CAPACITY {
        room[INLINE_CAPACITY - 1] = 192 + len as u8;
        return true;
    }
    room[INLINE_CAPACITY - 1] < 192
}

/// Reads a text of `len` bytes into the buffer that the string keeps.
#[tactic(auto, using(crate::proofs::WireLemmas::read_text_facts))]
fn read_long<R: Read>(alloc: Global, len: usize, reader: &mut R) -> Result<CompactString, WireError>
    requires long { INLINE_CAPACITY < len }
    requires fits { len < 2 ^ 32 }
    ensures consumed { IfOk result (λ v.
        Consumes (R.remaining reader.old) (R.remaining reader.new) (utf8 v.text)) }
    ensures text { IfOk result (λ v. IsText v.text) }
    ensures len { IfOk result (λ v. size v.text ≡ len) }
    ensures place { IfOk result (λ v. v.placement ≡ heap_placement len) }
    ensures err { IfErr result (λ e.
        TextFails (R.remaining reader.old) (R.remaining reader.new) len e) }
{
    let bytes = read_bytes(alloc, len, reader)?;
    if validate(&bytes).is_err() {
        return Err(WireError::Utf8);
    }
    let text = unsafe { String::from_utf8_unchecked(bytes) };
    Ok(CompactString::from(text))
}

/// Reads `len` bytes, allocating in steps.
fn read_bytes<R: Read>(alloc: Global, len: usize, reader: &mut R) -> Result<Vec<u8>, WireError>
    requires long { INLINE_CAPACITY < len }
    requires fits { len < 2 ^ 32 }
    ensures consumed { IfOk result (λ bytes.
        Consumes (R.remaining reader.old) (R.remaining reader.new) bytes.items) }
    ensures len { IfOk result (λ bytes. vec_len bytes ≡ len) }
    ensures capacity { IfOk result (λ bytes. vec_capacity bytes ≡ len) }
    ensures err { IfErr result (λ e.
        StopsBelow (R.remaining reader.old) (R.remaining reader.new) len e) }
{
    let mut bytes = Vec::new(alloc);
    while bytes.len() < len {
        let filled = bytes.len();
        if !make_room(&mut bytes, next_room(filled, len)) {
            return Err(WireError::Reserve(ReserveError));
        }
        read_full(&mut bytes[filled..], reader)?;
    }
    Ok(bytes)
}

/// Returns the next size of the buffer: 1 MiB, then twice what has come, and at most `len`.
fn next_room(filled: usize, len: usize) -> usize
    requires fits { len < 2 ^ 32 }
    requires missing { filled < len }
    ensures value { result ≡ next_room filled len }
    ensures more { filled < result }
    ensures within { result ≤ len }
{
    len.min(FIRST_ROOM.max(2 * filled))
}

/// Extends the vector with zeros to exactly `room` bytes, or returns `false` if allocation fails.
fn make_room(bytes: &mut Vec<u8>, room: usize) -> bool
    requires { vec_len bytes.old < room }
    ensures front { take (vec_len bytes.old) bytes.new.items ≡ bytes.old.items }
    ensures len { OnTrue result (vec_len bytes.new ≡ room) }
    ensures capacity { OnTrue result
        (vec_capacity bytes.old ≤ room → vec_capacity bytes.new ≡ room) }
{
    if bytes.reserve_exact(room - bytes.len()).is_err() || bytes.resize(room, 0).is_err() {
        return false;
    }
    // Always true, but `resize` says only that it does not shrink.
    bytes.capacity() == room
}

/// Fills `buffer` from the reader.
#[inline]
fn read_full<R: Read>(buffer: &mut [u8], reader: &mut R) -> Result<(), WireError>
    ensures consumed { OnOk result
        (Consumes (R.remaining reader.old) (R.remaining reader.new) buffer.new) }
    ensures len { length buffer.new ≡ length buffer.old }
    ensures err { IfErr result (λ e.
        StopsBelow (R.remaining reader.old) (R.remaining reader.new) (length buffer.old) e) }
{
    let mut at = 0;
    while at < buffer.len() {
        match reader.read(&mut buffer[at..]) {
            Ok(0) => return Err(WireError::UnexpectedEnd),
            Ok(count) => at += count,
            Err(error) => return Err(WireError::Io(error)),
        }
    }
    Ok(())
}
