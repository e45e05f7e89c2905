//! Random edits.

use compact_edit::Edit;
use compact_str::Standard;
use compact_testing::random::Random;
use std::ops::Bound::{Excluded, Included};

/// Characters of one to four bytes, most of them of one.
const CHARACTERS: [char; 16] = [
    'a', 'b', 'x', 'A', 'Z', '0', '7', '.', '-', '~', 'ä', '\u{7FF}', '€', '\u{800}', '𝄞', '💖',
];

/// Texts of up to 13 bytes.
const PIECES: [&str; 16] = [
    "",
    "a",
    "Bc",
    "xyz",
    "0123",
    "-----",
    "ä",
    "€",
    "𝄞",
    "äb",
    "a€",
    "x𝄞",
    "abcdefgh",
    "Ü€𝄞",
    "ABCDEFGHIJKLM",
    "€€€€",
];

/// Draws which characters `retain` keeps.
fn flags(random: &mut Random) -> &'static [bool] {
    match random.below(4) {
        0 => &[],
        1 => &[false],
        2 => &[true, false, true],
        _ => &[true, true, true, true, true, false, false, true, false],
    }
}

fn character(random: &mut Random) -> char {
    let drawn = random.below(16) as usize;
    CHARACTERS.get(drawn).copied().unwrap_or('a')
}

fn piece(random: &mut Random) -> &'static str {
    let drawn = random.below(16) as usize;
    PIECES.get(drawn).copied().unwrap_or("")
}

/// Draws a text that fills up to 22, 23 or 24 bytes.
fn filling(random: &mut Random, len: usize) -> &'static str {
    const LETTERS: &str = "ffffffffffffffffffffffff";
    let wanted = random.below(3) as usize;
    let lacking = wanted.saturating_add(22).saturating_sub(len);
    LETTERS.get(..lacking).unwrap_or("")
}

/// Draws a position in a text of `len` bytes, or one past its end.
fn place(random: &mut Random, len: usize) -> usize {
    random.below(len.saturating_add(2) as u64) as usize
}

/// Returns the edit for a drawn number. Its positions may be no boundaries, and its text may have more than 24 bytes.
fn edit_of(drawn: u64, random: &mut Random, len: usize) -> Edit<'static, Standard> {
    match drawn {
        0 | 1 => Edit::Push(character(random)),
        2 => Edit::PushStr(piece(random)),
        3 => Edit::PushStr(filling(random, len)),
        4 | 5 => Edit::Insert(place(random, len), character(random)),
        6 => Edit::InsertStr(place(random, len), piece(random)),
        7 => Edit::InsertStr(place(random, len), filling(random, len)),
        8 | 9 | 10 => {
            let (start, end) = (place(random, len), place(random, len));
            Edit::ReplaceRange(Included(start), Excluded(end), piece(random))
        }
        11 => Edit::Drain(Included(place(random, len)), Excluded(place(random, len))),
        12 | 13 => Edit::Remove(place(random, len)),
        14 => Edit::Truncate(place(random, len)),
        15 => Edit::SplitOff(place(random, len)),
        16 => Edit::Pop,
        17 => Edit::Retain(flags(random)),
        _ => rare_edit(random, len),
    }
}

/// Returns an edit that leaves the text empty, or its length unchanged.
fn rare_edit(random: &mut Random, len: usize) -> Edit<'static, Standard> {
    match random.below(8) {
        0 => Edit::Clear,
        1 => Edit::Zeroize,
        2 | 3 => Edit::MakeLower,
        4 => Edit::MakeUpper,
        5 => Edit::Reserve(24usize.saturating_sub(len)),
        6 => Edit::ShrinkToFit,
        _ => Edit::Repeat(random.below(4) as usize),
    }
}

/// Returns the greatest length that an edit can lead to.
fn len_after(edit: &Edit<Standard>, len: usize) -> usize {
    match edit {
        Edit::Push(character) | Edit::Insert(_, character) => {
            len.saturating_add(character.len_utf8())
        }
        Edit::PushStr(text) | Edit::InsertStr(_, text) => len.saturating_add(text.len()),
        Edit::ReplaceRange(Included(start), Excluded(end), text) => len
            .saturating_sub(end.saturating_sub(*start))
            .saturating_add(text.len()),
        Edit::Repeat(count) => len.saturating_mul(*count),
        _ => len,
    }
}

/// Draws an edit of a text of `len` bytes, replaced by `Pop` if the result could have more than 24; `None` to copy
/// another text.
pub fn edit(random: &mut Random, len: usize) -> Option<Edit<'static, Standard>> {
    let drawn = random.below(20);
    if drawn == 18 {
        return None;
    }
    let edit = edit_of(drawn, random, len);
    if len_after(&edit, len) > 24 {
        return Some(Edit::Pop);
    }
    Some(edit)
}
