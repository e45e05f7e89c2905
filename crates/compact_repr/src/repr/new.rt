//! Creating a representation.
ghost use Rattle.std.specs.Prelude.{◌≡◌, ◌<◌, ◌≤◌, ℕ, List, length, nat_eq, if◌then◌else◌, [], Some, IfOk, OnErr, MatchOption, string_bytes};
ghost use Rattle.std.specs.String.{string_capacity};
ghost use Rattle.compact_repr.specs.Words.{text_of, placed_text, inline_placement, heap_placement, const_new_placement, from_string_placement, INLINE_CAPACITY, IsPlacedAsNew, HasNewCapacity, CloneAllocates, clone};
ghost use Rattle.compact_repr.specs.Packed.{IsPackedFor};

use crate::growth::{MAX_CAPACITY, Policy, checked_capacity};
use crate::heap::HeapBuffer;
use crate::inline::{INLINE_CAPACITY, InlineBuffer};
use crate::repr::{Buffer, Repr};
use crate::static_str::StaticStr;
use std::alloc::{AllocError, Global};

impl<P: Policy> Repr<P> {
    /// Creates an empty inline text.
    #[inline]
    pub fn empty(alloc: Global) -> Self
        ensures { result ≡ placed_text [] inline_placement }
    {
        Self::from_buffer(alloc, Buffer::Inline([], InlineBuffer::empty()))
    }

    /// Copies `text`: inline up to 24 bytes, otherwise into a new heap buffer.
    ///
    /// # Errors
    ///
    /// Returns `AllocError` if the heap buffer cannot be allocated.
    #[inline(always)]
    pub fn new(alloc: Global, text: &str) -> Result<Self, AllocError>
        ensures text { IfOk result (λ r. r.text ≡ text_of text.now) }
        ensures place { IfOk result (IsPlacedAsNew P.growth) }
        ensures allocates { OnErr result (INLINE_CAPACITY < length text.now) }
    {
        if text.len() > INLINE_CAPACITY {
            let heap = Self::copy_to_heap(alloc, text)?.with_known_len(text.len());
            return Ok(Self::from_buffer(alloc, Buffer::Heap(heap)));
        }
        let inline = InlineBuffer::new(text);
        Ok(Self::from_buffer(alloc, Buffer::Inline([], inline)))
    }

    /// Copies a `text` of more than 24 bytes. Not inlined, so that the copy is one `memmove`.
    #[inline(never)]
    fn copy_to_heap(alloc: Global, text: &str) -> Result<HeapBuffer, AllocError>
        requires { INLINE_CAPACITY < length text.now }
        ensures text { IfOk result (λ h. h.text ≡ text_of text.now) }
        ensures place { IfOk result
            (λ h. IsPlacedAsNew P.growth (placed_text h.text (heap_placement h.capacity))) }
    {
        // Not `checked_capacity`, whose `Option` would be tested once more.
        let capacity = text.len().max(P::MIN_HEAP);
        if capacity > MAX_CAPACITY {
            return Err(AllocError);
        }
        HeapBuffer::copy_of(alloc, text, capacity)
    }

    /// Creates a value from a string literal: inline up to 24 bytes, otherwise by reference.
    #[inline]
    pub fn from_static(alloc: Global, text: &'static str) -> Self
        ensures { let t = text_of text.now in result ≡ placed_text t (const_new_placement t) }
    {
        if INLINE_CAPACITY < text.len() {
            return Self::from_buffer(alloc, Buffer::Static(StaticStr::new(text)));
        }
        let inline = InlineBuffer::new(text);
        Self::from_buffer(alloc, Buffer::Inline([], inline))
    }

    /// Creates an inline value from 24 packed bytes, or returns `None` if they do not pack a text.
    #[inline]
    pub fn from_packed(alloc: Global, bytes: &[u8; 24]) -> Option<Self>
        ensures { MatchOption result ((t : List ℕ) → ¬ (IsPackedFor bytes.now t))
            (λ r. IsPackedFor bytes.now r.text × (r.placement ≡ inline_placement)) }
    {
        let inline = InlineBuffer::from_packed(bytes)?;
        Some(Self::from_buffer(alloc, Buffer::Inline([], inline)))
    }

    /// Creates an empty text with room for `capacity` bytes: inline up to 24, otherwise in a new heap buffer.
    ///
    /// # Errors
    ///
    /// Returns `AllocError` if the heap buffer cannot be allocated.
    pub fn with_capacity(alloc: Global, capacity: usize) -> Result<Self, AllocError>
        ensures text { IfOk result (λ r. r.text ≡ []) }
        ensures place { IfOk result (HasNewCapacity P.growth capacity) }
        ensures allocates { OnErr result (INLINE_CAPACITY < capacity) }
    {
        if capacity <= INLINE_CAPACITY {
            return Ok(Self::empty(alloc));
        }
        let Some(capacity) = checked_capacity::<P>(capacity) else {
            return Err(AllocError);
        };
        let heap = HeapBuffer::with_capacity(alloc, capacity)?;
        Ok(Self::from_buffer(alloc, Buffer::Heap(heap)))
    }

    /// Converts a `String`: copies up to 24 bytes inline, and otherwise reuses its buffer.
    #[tactic(auto, using(compact_text::proofs::TextFacts::text_facts, crate::proofs::Facts::repr_facts))]
    pub fn from_string(text: String) -> Self
        ensures { let t = text_of (string_bytes text)
            in result ≡ placed_text t (from_string_placement t (string_capacity text)) }
    {
        let alloc = *text.allocator();
        if text.len() <= INLINE_CAPACITY {
            let inline = InlineBuffer::new(text.as_str());
            return Self::from_buffer(alloc, Buffer::Inline([], inline));
        }
        Self::from_buffer(alloc, Buffer::Heap(HeapBuffer::from_string(text)))
    }

    /// Reuses the buffer of `text`, without copying. A string with no buffer becomes inline and empty.
    pub fn from_string_buffer(text: String) -> Self
        ensures { let t = text_of (string_bytes text)
            in result ≡ placed_text t (if nat_eq (string_capacity text) 0 then inline_placement
            else heap_placement (string_capacity text)) }
    {
        let alloc = *text.allocator();
        if text.capacity() == 0 {
            return Self::empty(alloc);
        }
        Self::from_buffer(alloc, Buffer::Heap(HeapBuffer::from_string(text)))
    }

    /// Clones the value: a heap text of more than 24 bytes gets a new buffer, a shorter one is copied inline. Inlined,
    /// so that an inline value is copied without a call.
    ///
    /// # Errors
    ///
    /// Returns `AllocError` if the new buffer cannot be allocated.
    #[inline(always)]
    pub fn try_clone(&self) -> Result<Self, AllocError>
        ensures ok { IfOk result (λ r. clone P.growth self.now ≡ Some r) }
        ensures err { OnErr result (CloneAllocates self.now) }
    {
        match &self.buffer {
            Buffer::Static(text) => Ok(Self::from_buffer(self.alloc, Buffer::Static(text.clone()))),
            Buffer::Inline(_, inline) => Ok(Self::from_buffer(
                self.alloc,
                Buffer::Inline([], inline.clone()),
            )),
            Buffer::Heap(heap) if heap.len() > INLINE_CAPACITY => {
                let text = heap.as_str();
                let heap = Self::copy_to_heap(self.alloc, text)?.with_known_len(text.len());
                Ok(Self::from_buffer(self.alloc, Buffer::Heap(heap)))
            }
            Buffer::Heap(heap) => Ok(Self::copy_inline(self.alloc, heap.as_str())),
        }
    }

    /// Copies a `text` of at most 24 bytes inline. Not inlined, so that `try_clone` stays short.
    #[inline(never)]
    fn copy_inline(alloc: Global, text: &str) -> Self
        requires { length text.now ≤ INLINE_CAPACITY }
        ensures { result ≡ placed_text (text_of text.now) inline_placement }
    {
        Self::from_buffer(alloc, Buffer::Inline([], InlineBuffer::new(text)))
    }
}
