//! Edits at a position, of a range and of each character.

use crate::inputs::Cut;
use crate::run::Call;
use crate::text::Text;
use compact_str::{CompactString, ReserveError};
use std::alloc::Global;

/// Appends the text of a cut to the cleared value.
fn fill<T: Text>(value: &mut T, cut: &Cut) -> Result<(), ReserveError> {
    value.clear();
    value.push_str(cut.text.as_str())
}

/// Inserts the piece.
pub struct InsertStr;

impl<T: Text> Call<T, Cut> for InsertStr {
    fn run(_: Global, value: &mut T, cut: &Cut) -> Result<u64, ReserveError> {
        fill(value, cut)?;
        value.insert_str(cut.first, cut.piece.as_str())?;
        Ok(0)
    }
}

/// Removes the first characters, at most eight.
pub struct RemoveFirst;

impl<T: Text> Call<T, Cut> for RemoveFirst {
    fn run(_: Global, value: &mut T, cut: &Cut) -> Result<u64, ReserveError> {
        fill(value, cut)?;
        let mut sum: u64 = 0;
        for _ in 0..8 {
            sum = sum.wrapping_add(u64::from(value.remove(0)?));
        }
        Ok(sum)
    }
}

/// Splits off the rest of a new value.
pub struct SplitOff;

impl<T: Text> Call<T, Cut> for SplitOff {
    fn run(alloc: Global, value: &mut T, cut: &Cut) -> Result<u64, ReserveError> {
        let mut whole = T::new(alloc, cut.text.as_str())?;
        *value = whole.split_off(cut.first)?;
        Ok(0)
    }
}

/// Replaces the range by the piece.
pub struct Replace;

impl<T: Text> Call<T, Cut> for Replace {
    fn run(_: Global, value: &mut T, cut: &Cut) -> Result<u64, ReserveError> {
        fill(value, cut)?;
        value.replace(cut.first, cut.last, cut.piece.as_str())?;
        Ok(0)
    }
}

/// Drains the range, and sums its characters.
pub struct Drain;

impl<T: Text> Call<T, Cut> for Drain {
    fn run(_: Global, value: &mut T, cut: &Cut) -> Result<u64, ReserveError> {
        fill(value, cut)?;
        value.sum_drained(cut.first, cut.last)
    }
}

/// Drains the range, unseen.
pub struct DropDrain;

impl<T: Text> Call<T, Cut> for DropDrain {
    fn run(_: Global, value: &mut T, cut: &Cut) -> Result<u64, ReserveError> {
        fill(value, cut)?;
        value.drop_drained(cut.first, cut.last)?;
        Ok(0)
    }
}

/// Retains all characters but one.
pub struct Retain;

impl<T: Text> Call<T, Cut> for Retain {
    fn run(_: Global, value: &mut T, cut: &Cut) -> Result<u64, ReserveError> {
        fill(value, cut)?;
        value.retain(cut.character)?;
        Ok(0)
    }
}

/// Retains two characters of three.
pub struct RetainTwo;

impl Call<CompactString, Cut> for RetainTwo {
    fn run(_: Global, value: &mut CompactString, cut: &Cut) -> Result<u64, ReserveError> {
        fill(value, cut)?;
        let mut place: u32 = 0;
        value.retain(|_| {
            place = if place == 2 { 0 } else { place.wrapping_add(1) };
            place != 0
        })?;
        Ok(0)
    }
}
