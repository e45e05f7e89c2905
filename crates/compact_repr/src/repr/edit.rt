//! Edits in place, which never allocate and never move the text to another place.
ghost use Rattle.std.specs.Prelude.{◌≡◌, ◌+◌, ◌-◌, ◌^◌, ◌≤◌, ◌<◌, [], ◌∷◌, ◌++◌, length, nat_eq, ◌||◌, IsTrue, false, ◌↔◌, IsSome, IfSome, None};
ghost use Rattle.std.specs.Char.{len_utf8};
ghost use Rattle.compact_text.specs.Text.{room_for_char};
ghost use Rattle.compact_repr.specs.Words.{size, text_of, IsBoundary, IsCharAt, replaced_text, placed_text, IsOwned, fits_in_place, clear, truncate, zeroize, PopsChar};
ghost use Rattle.compact_text.specs.Case.{text_in_case};
ghost use Rattle.compact_text.specs.Retain.{RetainsCharsTo};

use crate::growth::Policy;
use crate::inline::InlineBuffer;
use crate::repr::{Buffer, Repr};
use crate::static_str::StaticStr;
use compact_text::slices::Case;
use compact_text::str_parts::{char_at, encode_char};

impl<P: Policy> Repr<P> {
    /// Appends `text` if the value is owned and has room. Returns whether it did; otherwise changes nothing.
    #[inline(always)]
    pub fn try_push_str(&mut self, text: &str) -> bool
        ensures fits { result ≡ fits_in_place self.old (length text.now) }
        ensures pushed { IsTrue result
            → self.new ≡ placed_text (self.old.text ++ text_of text.now) self.old.placement }
        ensures full { result ≡ false → self.new ≡ self.old }
    {
        match &mut self.buffer {
            Buffer::Inline(_, inline) => inline.try_push_str(text),
            Buffer::Heap(heap) => heap.try_push_str(text),
            Buffer::Static(_) => false,
        }
    }

    /// Appends `character` if the value is owned, and has room for any character or this one is ASCII and fits. Returns
    /// whether it did; otherwise changes nothing.
    #[inline(always)]
    pub fn try_push(&mut self, character: char) -> bool
        ensures fits { result ≡ fits_in_place self.old (room_for_char character) }
        ensures pushed { IsTrue result
            → self.new ≡ placed_text (self.old.text ++ character ∷ []) self.old.placement }
        ensures full { result ≡ false → self.new ≡ self.old }
    {
        match &mut self.buffer {
            Buffer::Inline(_, inline) => inline.try_push(character),
            Buffer::Heap(heap) => heap.try_push(character),
            Buffer::Static(_) => false,
        }
    }

    /// Replaces the bytes from one boundary to another with `text` if the value is owned and the result fits. Returns
    /// whether it did; otherwise changes nothing. Keeps the place and the capacity.
    #[inline(always)]
    pub fn try_replace_range(&mut self, start: usize, end: usize, text: &str) -> bool
        requires order { start ≤ end }
        requires first { IsBoundary self.old.text start }
        requires last { IsBoundary self.old.text end }
        ensures fits { result ≡ fits_in_place self.old (length text.now - (end - start)) }
        ensures small { IsTrue result → size self.old.text < 2 ^ 63 }
        ensures replaced { IsTrue result
            → self.new ≡ placed_text (replaced_text self.old.text start end
            (text_of text.now)) self.old.placement }
        ensures full { result ≡ false → self.new ≡ self.old }
    {
        match &mut self.buffer {
            Buffer::Static(_) => false,
            Buffer::Inline(_, inline) => inline.try_replace_range(start, end, text),
            Buffer::Heap(heap) => heap.try_replace_range(start, end, text),
        }
    }

    /// Removes the bytes from one boundary to another if the value is owned. Returns whether it did; otherwise changes
    /// nothing. Keeps the place and the capacity.
    #[inline(always)]
    pub fn try_remove_range(&mut self, start: usize, end: usize) -> bool
        requires order { start ≤ end }
        requires first { IsBoundary self.old.text start }
        requires last { IsBoundary self.old.text end }
        ensures owned { IsTrue result ↔ (IsOwned self.old) }
        ensures cut { IsTrue result
            → self.new ≡ placed_text (replaced_text self.old.text start end []) self.old.placement }
        ensures full { result ≡ false → self.new ≡ self.old }
    {
        match &mut self.buffer {
            Buffer::Static(_) => false,
            Buffer::Inline(_, inline) => {
                inline.remove_range(start, end);
                true
            }
            Buffer::Heap(heap) => {
                heap.remove_range(start, end);
                true
            }
        }
    }

    /// Inserts `character` at byte `index`, a boundary, if the value is owned and has room. Returns whether it did;
    /// otherwise changes nothing. Keeps the place and the capacity.
    #[inline(always)]
    pub fn try_insert(&mut self, index: usize, character: char) -> bool
        requires { IsBoundary self.old.text index }
        ensures fits { result ≡ fits_in_place self.old (len_utf8 character) }
        ensures small { IsTrue result → size self.old.text < 2 ^ 63 }
        ensures inserted { IsTrue result
            → self.new ≡ placed_text (replaced_text self.old.text index index
            (character ∷ [])) self.old.placement }
        ensures full { result ≡ false → self.new ≡ self.old }
    {
        let mut bytes = [0; 4];
        let text = encode_char(character, &mut bytes);
        match &mut self.buffer {
            Buffer::Static(_) => false,
            Buffer::Inline(_, inline) => inline.try_replace_range(index, index, text),
            Buffer::Heap(heap) => heap.try_replace_range(index, index, text),
        }
    }

    /// Removes and returns the character at byte `index`, a boundary before the end, if the value is owned. Otherwise
    /// returns `None` and changes nothing. Keeps the place and the capacity.
    #[inline(always)]
    pub fn try_remove(&mut self, index: usize) -> Option<char>
        requires boundary { IsBoundary self.old.text index }
        requires inside { index < size self.old.text }
        ensures owned { IsSome result ↔ IsOwned self.old }
        ensures character { IfSome result (λ c. IsCharAt self.old.text index c) }
        ensures removed { IfSome result
            (λ c. self.new
            ≡ placed_text (replaced_text self.old.text index
            (index + len_utf8 c) []) self.old.placement) }
        ensures unchanged { result ≡ None → self.new ≡ self.old }
    {
        match &mut self.buffer {
            Buffer::Static(_) => None,
            Buffer::Inline(_, inline) => {
                let (character, end) = char_at(inline.as_str(), index);
                inline.remove_range(index, end);
                Some(character)
            }
            Buffer::Heap(heap) => {
                let (character, end) = char_at(heap.as_str(), index);
                heap.remove_range(index, end);
                Some(character)
            }
        }
    }

    /// Removes and returns the last character, or returns `None` if the text is empty. Keeps the place, and the
    /// capacity of an owned value; a static value becomes a shorter part of the same static text.
    #[inline]
    pub fn pop(&mut self) -> Option<char>
        ensures { PopsChar self.old result self.new }
    {
        match &mut self.buffer {
            Buffer::Inline(_, inline) => inline.pop(),
            Buffer::Heap(heap) => heap.pop(),
            Buffer::Static(text) => text.pop(),
        }
    }

    /// Truncates the text to its first `len` bytes, which end at a boundary; does nothing if `len` is at least the
    /// length. Keeps the place, and the capacity of an owned value; a static value becomes a prefix of the same static
    /// text.
    #[inline]
    pub fn truncate(&mut self, len: usize)
        requires { len < size self.old.text → IsBoundary self.old.text len }
        ensures { self.new ≡ truncate self.old len }
    {
        match &mut self.buffer {
            Buffer::Static(text) => {
                if len < text.len() {
                    *text = text.slice_to(len);
                }
            }
            Buffer::Inline(_, inline) => {
                if len < inline.len() {
                    inline.truncate(len);
                }
            }
            Buffer::Heap(heap) => {
                if len < heap.len() {
                    heap.truncate(len);
                }
            }
        }
    }

    /// Replaces the whole text with `text` if the value is owned and has room, or if `text` is empty. Returns whether
    /// it did; otherwise changes nothing. Keeps the place, and the capacity of an owned value.
    #[inline]
    #[tactic(auto, using(compact_text::proofs::TextFacts::empty_facts))]
    pub fn try_assign(&mut self, text: &str) -> bool
        ensures fits { result
            ≡ (nat_eq (length text.now) 0 || fits_in_place (clear self.old) (length text.now)) }
        ensures assigned { IsTrue result
            → self.new ≡ placed_text (text_of text.now) (clear self.old).placement }
        ensures full { result ≡ false → self.new ≡ self.old }
    {
        match &mut self.buffer {
            Buffer::Inline(_, inline) => inline.try_assign(text),
            Buffer::Heap(heap) => heap.try_assign(text),
            Buffer::Static(old) => {
                if !text.is_empty() {
                    return false;
                }
                *old = StaticStr::new("");
                true
            }
        }
    }

    /// Removes all characters. Keeps the place.
    #[inline]
    pub fn clear(&mut self)
        ensures { self.new ≡ clear self.old }
    {
        match &mut self.buffer {
            Buffer::Static(text) => *text = StaticStr::new(""),
            Buffer::Inline(_, inline) => inline.clear(),
            Buffer::Heap(heap) => heap.clear(),
        }
    }

    /// Converts ASCII characters of an owned value to upper or lower case. Keeps the place and the capacity.
    #[inline]
    pub fn convert_case(&mut self, case: Case)
        requires { IsOwned self.old }
        ensures { self.new ≡ placed_text (text_in_case case self.old.text) self.old.placement }
    {
        match &mut self.buffer {
            Buffer::Inline(_, inline) => inline.convert_case(case),
            Buffer::Heap(heap) => heap.convert_case(case),
            Buffer::Static(_) => unreachable!(),
        }
    }

    /// Removes all characters, and writes zeros over every byte that the value owns. A static value becomes inline; any
    /// other keeps its place and capacity.
    pub fn zeroize(&mut self)
        ensures { self.new ≡ zeroize self.old }
    {
        match &mut self.buffer {
            Buffer::Inline(_, inline) => inline.zeroize(),
            Buffer::Heap(heap) => heap.zeroize(),
            Buffer::Static(_) => self.buffer = Buffer::Inline([], InlineBuffer::empty()),
        }
    }

    /// Keeps the characters of an owned value for which `keep` returns `true`; calls it once for each, in order. Keeps
    /// the place and the capacity.
    #[inline]
    pub fn retain<F: FnMut(char) -> bool>(&mut self, keep: &mut F)
        requires owned { IsOwned self.old }
        requires callable { F.IsAlwaysCallable keep.old }
        ensures text { RetainsCharsTo F.FnMut keep.old self.old.text self.new.text keep.new }
        ensures callable { F.IsAlwaysCallable keep.new }
        ensures placement { self.new.placement ≡ self.old.placement }
    {
        match &mut self.buffer {
            Buffer::Inline(_, inline) => inline.retain(keep),
            Buffer::Heap(heap) => heap.retain(keep),
            Buffer::Static(_) => unreachable!(),
        }
    }
}
