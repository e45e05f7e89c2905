//! Characters and parts of a representation's text, by byte position.
ghost use Rattle.std.specs.Prelude.{◌≡◌, ◌+◌, ◌-◌, ◌<◌, ◌≤◌, length, true, IsTrue, ◌↔◌, IfSome, IsSome, MatchOption};
ghost use Rattle.std.specs.Char.{len_utf8};
ghost use Rattle.std.specs.Str.{IsCharBoundary};
ghost use Rattle.compact_repr.specs.Words.{size, utf8, text_of, IsBoundary, IsCharAt, text_after, substring, is_static_place, IsOwned, IsHeap};

use crate::growth::Policy;
use crate::repr::{Buffer, Repr};
use compact_text::str_parts;

impl<P: Policy> Repr<P> {
    /// Returns the text of a heap value, or `None` if it is not on the heap. Lets a loop match on the place once.
    #[inline(always)]
    pub fn heap_str(&self) -> Option<&str>
        ensures place { IsSome result ↔ IsHeap self.now }
        ensures bytes { IfSome result (λ s. s.now ≡ utf8 self.now.text) }
        ensures text { IfSome result (λ s. text_of s.now ≡ self.now.text) }
    {
        match &self.buffer {
            Buffer::Heap(heap) => Some(heap.as_str()),
            _ => None,
        }
    }

    /// Returns `true` if byte `index` is a character boundary; the start and the end are.
    #[inline]
    pub fn is_char_boundary(&self, index: usize) -> bool
        ensures boundary { IsTrue result ↔ IsBoundary self.now.text index }
        ensures bytes { IsTrue result → IsCharBoundary (utf8 self.now.text) index }
    {
        self.as_str().is_char_boundary(index)
    }

    /// Returns the text from byte `index` on.
    #[inline]
    pub fn suffix(&self, index: usize) -> &str
        requires { IsBoundary self.now.text index }
        ensures text { text_of result.now ≡ text_after self.now.text index }
        ensures len { length result.now ≡ size (text_after self.now.text index) }
    {
        str_parts::suffix(self.as_str(), index)
    }

    /// Returns the text from byte `start` to byte `end`.
    #[inline]
    pub fn substring(&self, start: usize, end: usize) -> &str
        requires order { start ≤ end }
        requires first { IsBoundary self.now.text start }
        requires last { IsBoundary self.now.text end }
        ensures text { text_of result.now ≡ substring self.now.text start end }
        ensures len { length result.now ≡ end - start }
    {
        str_parts::substring(self.as_str(), start, end)
    }

    /// Returns the text from byte `index` on if the value is static, or `None` if it is not.
    #[inline]
    pub fn static_suffix(&self, index: usize) -> Option<&'static str>
        requires { IsBoundary self.now.text index }
        ensures { MatchOption result (IsOwned self.now)
            (λ s. (is_static_place self.now.placement.place ≡ true)
            × (text_of s.now ≡ text_after self.now.text index)) }
    {
        match &self.buffer {
            Buffer::Inline(_, _) => None,
            Buffer::Heap(_) => None,
            Buffer::Static(text) => Some(text.slice_from(index).as_static_str()),
        }
    }
}
