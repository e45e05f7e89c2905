//! Edits that may have to allocate: to reserve room, or to make the value owned.
ghost use Rattle.std.specs.Prelude.{◌≡◌, ◌+◌, ◌-◌, ◌^◌, ◌<◌, ◌≤◌, [], ◌∷◌, ◌++◌, length, IfOk, OnOk, OnErr, false};
ghost use Rattle.std.specs.Char.{len_utf8};
ghost use Rattle.compact_text.specs.Text.{room_for_char};
ghost use Rattle.compact_repr.specs.Words.{size, text_of, IsBoundary, IsCharAt, substring, replaced_text, fits_in_place, PlacedFor, AllocatesFor, owned, room, room_to_append, room_to_replace};

use crate::growth::Policy;
use crate::repr::{Buffer, Repr};
use compact_text::str_parts::{self, encode_char};
use std::alloc::AllocError;

impl<P: Policy> Repr<P> {
    /// Appends a `text` that does not fit in place: reserves first. Not inlined, so that an append that fits stays short.
    ///
    /// # Errors
    ///
    /// Returns `AllocError` if a new buffer cannot be allocated.
    #[cold]
    #[inline(never)]
    #[tactic(auto, using(crate::proofs::PlacementLemmas::placed_facts))]
    pub fn push_str_slow(&mut self, text: &str) -> Result<(), AllocError>
        requires { fits_in_place self.old (length text.now) ≡ false }
        ensures text { OnOk result (self.new.text ≡ self.old.text ++ text_of text.now) }
        ensures place { OnOk result
            (PlacedFor P.growth self.old self.new (room_to_append (length text.now))) }
        ensures allocates { OnErr result
            (AllocatesFor self.old (room_to_append (length text.now))) }
        ensures err { OnErr result (self.new ≡ self.old) }
    {
        if text.is_empty() {
            return Ok(());
        }
        self.make_room(text.len())?;
        if !self.try_push_str(text) {
            unreachable!();
        }
        Ok(())
    }

    /// Appends a character that `try_push` did not append. One that is not ASCII may still fit, since `try_push` asks for four
    /// bytes. Not inlined and cold, so that a loop of appends stays short.
    ///
    /// # Errors
    ///
    /// Returns `AllocError` if a new buffer cannot be allocated.
    #[cold]
    #[inline(never)]
    #[tactic(auto, using(crate::proofs::PlacementLemmas::placed_facts))]
    pub fn push_slow(&mut self, character: char) -> Result<(), AllocError>
        requires { fits_in_place self.old (room_for_char character) ≡ false }
        ensures text { OnOk result (self.new.text ≡ self.old.text ++ character ∷ []) }
        ensures place { OnOk result
            (PlacedFor P.growth self.old self.new (room_to_append (len_utf8 character))) }
        ensures allocates { OnErr result
            (AllocatesFor self.old (room_to_append (len_utf8 character))) }
        ensures err { OnErr result (self.new ≡ self.old) }
    {
        if character.is_ascii() {
            self.make_room(1)?;
            if !self.try_push(character) {
                unreachable!();
            }
            return Ok(());
        }
        let mut bytes = [0; 4];
        let text = encode_char(character, &mut bytes);
        if self.try_push_str(text) {
            return Ok(());
        }
        self.push_str_slow(text)
    }

    /// Inserts `text`, which does not fit in place, at byte `index`, a boundary. A static value becomes owned even if
    /// `text` is empty.
    ///
    /// # Errors
    ///
    /// Returns `AllocError` if a new buffer cannot be allocated.
    #[cold]
    #[inline(never)]
    #[tactic(auto, using(crate::proofs::PlacementLemmas::placed_facts))]
    pub fn insert_str_slow(&mut self, index: usize, text: &str) -> Result<(), AllocError>
        requires full { fits_in_place self.old (length text.now) ≡ false }
        requires boundary { IsBoundary self.old.text index }
        ensures text { OnOk result
            (self.new.text ≡ replaced_text self.old.text index index (text_of text.now)) }
        ensures place { OnOk result
            (PlacedFor P.growth self.old self.new (room (length text.now))) }
        ensures allocates { OnErr result (AllocatesFor self.old (room (length text.now))) }
        ensures err { OnErr result (self.new ≡ self.old) }
        ensures small { size self.old.text < 2 ^ 63 }
    {
        self.make_room(text.len())?;
        if !self.try_replace_range(index, index, text) {
            unreachable!();
        }
        Ok(())
    }

    /// Inserts a character that does not fit in place at byte `index`, a boundary.
    ///
    /// # Errors
    ///
    /// Returns `AllocError` if a new buffer cannot be allocated.
    #[cold]
    #[inline(never)]
    pub fn insert_slow(&mut self, index: usize, character: char) -> Result<(), AllocError>
        requires full { fits_in_place self.old (len_utf8 character) ≡ false }
        requires boundary { IsBoundary self.old.text index }
        ensures text { OnOk result
            (self.new.text ≡ replaced_text self.old.text index index (character ∷ [])) }
        ensures place { OnOk result (PlacedFor P.growth self.old self.new (room (len_utf8 character))) }
        ensures allocates { OnErr result (AllocatesFor self.old (room (len_utf8 character))) }
        ensures err { OnErr result (self.new ≡ self.old) }
        ensures small { size self.old.text < 2 ^ 63 }
    {
        let mut bytes = [0; 4];
        self.insert_str_slow(index, encode_char(character, &mut bytes))
    }

    /// Removes and returns the character at byte `index`, a boundary before the end. A static value becomes owned first.
    ///
    /// # Errors
    ///
    /// Returns `AllocError` if a static value cannot be made owned.
    #[cold]
    #[inline(never)]
    #[tactic(auto, using(crate::proofs::PlacementLemmas::placed_facts))]
    pub fn remove_slow(&mut self, index: usize) -> Result<char, AllocError>
        requires boundary { IsBoundary self.old.text index }
        requires inside { index < size self.old.text }
        ensures character { IfOk result (λ c. IsCharAt self.old.text index c) }
        ensures text { IfOk result
            (λ c. self.new.text ≡ replaced_text self.old.text index (index + len_utf8 c) []) }
        ensures place { OnOk result (PlacedFor P.growth self.old self.new owned) }
        ensures allocates { OnErr result (AllocatesFor self.old owned) }
        ensures err { OnErr result (self.new ≡ self.old) }
    {
        self.make_owned()?;
        let Some(character) = self.try_remove(index) else {
            unreachable!();
        };
        Ok(character)
    }

    /// Replaces `start..end`, both boundaries, with `text`, which does not fit in place. Makes the value owned first,
    /// or reserves.
    ///
    /// # Errors
    ///
    /// Returns `AllocError` if a new buffer cannot be allocated.
    #[cold]
    #[inline(never)]
    #[tactic(auto, using(crate::proofs::PlacementLemmas::placed_facts))]
    pub fn replace_slow(&mut self, start: usize, end: usize, text: &str) -> Result<(), AllocError>
        requires full { fits_in_place self.old (length text.now - (end - start)) ≡ false }
        requires order { start ≤ end }
        requires first { IsBoundary self.old.text start }
        requires last { IsBoundary self.old.text end }
        ensures text { OnOk result
            (self.new.text ≡ replaced_text self.old.text start end (text_of text.now)) }
        ensures place { OnOk result
            (PlacedFor P.growth self.old self.new
            (room_to_replace (end - start) (length text.now))) }
        ensures allocates { OnErr result
            (AllocatesFor self.old (room_to_replace (end - start) (length text.now))) }
        ensures err { OnErr result (self.new ≡ self.old) }
    {
        let replaced = end - start;
        if text.len() <= replaced {
            self.make_owned()?;
        } else {
            self.make_room(text.len() - replaced)?;
        }
        if !self.try_replace_range(start, end, text) {
            unreachable!();
        }
        Ok(())
    }

    /// Appends the bytes from one boundary to another, copying them within the buffer. An empty part changes nothing.
    ///
    /// # Errors
    ///
    /// Returns `AllocError` if they do not fit and a larger buffer cannot be allocated.
    #[tactic(auto, using(crate::proofs::PlacementLemmas::part_facts))]
    pub fn push_within(&mut self, start: usize, end: usize) -> Result<(), AllocError>
        requires order { start ≤ end }
        requires first { IsBoundary self.old.text start }
        requires last { IsBoundary self.old.text end }
        ensures text { OnOk result
            (self.new.text ≡ self.old.text ++ substring self.old.text start end) }
        ensures place { OnOk result
            (PlacedFor P.growth self.old self.new (room_to_append (end - start))) }
        ensures allocates { OnErr result (AllocatesFor self.old (room_to_append (end - start))) }
        ensures err { OnErr result (self.new ≡ self.old) }
    {
        let len = end - start;
        if len == 0 {
            return Ok(());
        }
        self.reserve(len)?;
        match &mut self.buffer {
            Buffer::Inline(_, inline) => {
                let copy = inline.clone();
                if !inline.try_push_str(str_parts::substring(copy.as_str(), start, end)) {
                    unreachable!();
                }
            }
            Buffer::Heap(heap) => heap.push_within(start, end),
            Buffer::Static(_) => unreachable!(),
        }
        Ok(())
    }
}
