//! Characters and parts of a `&str`, by byte position.
#![tactic(auto, using(crate::proofs::TextFacts::text_facts, crate::proofs::Facts::str_parts_facts))]

ghost use Rattle.std.specs.Prelude.{◌≡◌, ◌+◌, ◌-◌, ◌<◌, ◌≤◌, List, ℕ, [], ◌∷◌, ◌++◌, length, take, MatchOption, IsTrue, ◌↔◌};
ghost use Rattle.std.specs.Char.{len_utf8, encode_utf8, IsScalar};
ghost use Rattle.std.specs.Int.{w32, to_le_bytes};
ghost use Rattle.compact_text.specs.Text.{text_of};
ghost use Rattle.compact_text.specs.Cut.{IsBoundary, IsCharAt, is_boundary, text_before, text_after, substring, CutIsBeforeAndAfter};

/// Returns the part before a boundary.
#[inline]
pub fn prefix(text: &str, index: usize) -> &str
    requires { IsBoundary (text_of text.now) index }
    ensures text { text_of result.now ≡ text_before (text_of text.now) index }
    ensures len { length result.now ≡ index }
{
    &text[..index]
}

/// Returns the part from a boundary on.
#[inline]
pub fn suffix(text: &str, index: usize) -> &str
    requires { IsBoundary (text_of text.now) index }
    ensures { text_of result.now ≡ text_after (text_of text.now) index }
{
    &text[index..]
}

/// Returns the part between two boundaries.
#[inline(always)]
pub fn substring(text: &str, start: usize, end: usize) -> &str
    requires order { start ≤ end }
    requires first { IsBoundary (text_of text.now) start }
    requires last { IsBoundary (text_of text.now) end }
    ensures text { text_of result.now ≡ substring (text_of text.now) start end }
    ensures len { length result.now ≡ end - start }
{
    prefix(suffix(text, start), end - start)
}

/// Returns `true` if `index`, in bytes, is a boundary of `text`.
#[inline]
pub fn is_boundary(text: &str, index: usize) -> bool
    ensures boundary { IsTrue result ↔ IsBoundary (text_of text.now) index }
    ensures value { result ≡ is_boundary (text_of text.now) index }
{
    text.is_char_boundary(index)
}

/// Returns the character that begins at a boundary before the end, and where it ends.
#[inline]
pub fn char_at(text: &str, index: usize) -> (char, usize)
    requires boundary { IsBoundary (text_of text.now) index }
    requires within { index < length text.now }
    ensures character { IsCharAt (text_of text.now) index result.0 }
    ensures end { result.1 ≡ index + len_utf8 result.0 }
    ensures next { IsBoundary (text_of text.now) result.1 }
{
    let mut chars = text[index..].chars();
    match chars.next() {
        Some(character) => (character, text.len() - chars.as_str().len()),
        None => unreachable!(),
    }
}

/// Returns the first character, and where it ends, or `None` if the text is empty.
#[inline]
pub fn split_first(text: &str) -> Option<(char, usize)>
    ensures { MatchOption result (text_of text.now ≡ [])
        (λ first. (first.1 ≡ len_utf8 first.0)
        × ((rest : List ℕ) × (text_of text.now ≡ first.0 ∷ rest))) }
{
    let mut after = text.chars();
    let character = after.next()?;
    Some((character, text.len() - after.as_str().len()))
}

/// Returns where the last character begins, and the character, or `None` if the text is empty. Reads each of its bytes
/// once, from the last one back.
#[inline]
pub fn split_last(text: &str) -> Option<(usize, char)>
    ensures { MatchOption result (text_of text.now ≡ [])
        (λ last. (text_of text.now ≡ text_before (text_of text.now) last.0 ++ last.1 ∷ [])
        × IsBoundary (text_of text.now) last.0) }
{
    let bytes = text.as_bytes();
    let len = bytes.len();
    if len == 0 {
        return None;
    }
    let byte = bytes[len - 1];
    if byte < 0x80 {
        return Some((len - 1, char::from(byte)));
    }
    let code = u32::from(byte) % 64;
    let byte = bytes[len - 2];
    if byte >= 0xC0 {
        return Some((len - 2, char_from_code(u32::from(byte) % 32 * 64 + code)));
    }
    let code = u32::from(byte) % 64 * 64 + code;
    let byte = bytes[len - 3];
    if byte >= 0xC0 {
        return Some((len - 3, char_from_code(u32::from(byte) % 16 * 4096 + code)));
    }
    let code = u32::from(byte) % 64 * 4096 + code;
    let byte = bytes[len - 4];
    Some((len - 4, char_from_code(u32::from(byte) % 8 * 262144 + code)))
}

/// Returns the character of a code.
#[inline(always)]
fn char_from_code(code: u32) -> char
    requires { IsScalar code }
    ensures { result ≡ code }
{
    unsafe { char::from_u32_unchecked(code) }
}

/// Encodes a character: returns its 1 to 4 bytes, padded, and their number.
#[inline(always)]
pub fn encoded(character: char) -> ([u8; 4], usize)
    ensures bytes { take result.1 result.0 ≡ encode_utf8 character }
    ensures len { result.1 ≡ len_utf8 character }
    ensures most { result.1 ≤ 4 }
{
    let (word, len) = encoded_word(character);
    (word.to_le_bytes(), len)
}

/// The same, with the bytes as a word.
#[inline(always)]
fn encoded_word(character: char) -> (u32, usize)
    ensures bytes { take result.1 (to_le_bytes w32 result.0) ≡ encode_utf8 character }
    ensures len { result.1 ≡ len_utf8 character }
{
    let code = character as u32;
    if code < 0x80 {
        return (code, 1);
    }
    let last = (0x80 + code % 64) as u8;
    if code < 0x800 {
        let bytes = [(0xC0 + code / 64) as u8, last, 0, 0];
        return (u32::from_le_bytes(bytes), 2);
    }
    let third = (0x80 + code / 64 % 64) as u8;
    if code < 0x1_0000 {
        let bytes = [(0xE0 + code / 4096) as u8, third, last, 0];
        return (u32::from_le_bytes(bytes), 3);
    }
    let second = (0x80 + code / 4096 % 64) as u8;
    let bytes = [(0xF0 + code / 262144) as u8, second, third, last];
    (u32::from_le_bytes(bytes), 4)
}

/// Encodes a character into the front of `bytes`, 1 to 4 bytes, and returns them as a text.
#[inline(always)]
pub fn encode_char(character: char, bytes: &mut [u8; 4]) -> &str
    ensures text { text_of result.now ≡ character ∷ [] }
    ensures len { length result.now ≡ len_utf8 character }
{
    let (word, len) = encoded(character);
    *bytes = word;
    unsafe { std::str::from_utf8_unchecked(&bytes[..len]) }
}

/// A law; the function does nothing. The two parts of a cut text are the text before and the text after the position. A
/// position is a boundary exactly if the characters within the first bytes fill them.
pub fn cut_is_before_and_after()
    ensures { CutIsBeforeAndAfter }
{}
