//! The representation: a buffer of one of three kinds, and the allocator it grows with.
ghost use Rattle.std.specs.Prelude.{◌≡◌, ◌<◌, ◌≤◌, ◌^◌, ◌↔◌, IsSome, IfSome, IsTrue, false, IfOk, IfErr, string_bytes};
ghost use Rattle.std.specs.String.{string_capacity};
ghost use Rattle.compact_repr.specs.Words.{size, utf8, text_of, inline, is_heap_place, IsSound, IsStatic, IsHeap, IsInline};
ghost use Rattle.compact_repr.specs.Packed.{IsPackedFor};
ghost use Rattle.compact_repr.specs.BufferValue.{buffer_value};

mod compare;
pub mod edit;
mod edit_slow;
mod new;
mod parts;
pub mod reserve;

use crate::growth::Policy;
use crate::heap::HeapBuffer;
use crate::inline::{INLINE_CAPACITY, InlineBuffer};
use crate::static_str::StaticStr;
use std::alloc::Global;
use std::marker::{Model, PhantomData};

/// The storage of a text: in the value itself, on the heap, or static.
#[derive(Drop)]
pub enum Buffer {
    Inline([u64; 0], InlineBuffer),
    Heap(HeapBuffer),
    Static(StaticStr),
}

/// A text with a place and a capacity, whose heap buffers grow by the policy `P`.
#[derive(Drop)]
pub struct Repr<P: Policy> {
    buffer: Buffer,
    alloc: Global,
    policy: PhantomData<P>,
}

impl<P: Policy> Model for Repr<P> {
    ghost use Rattle.compact_repr.specs.Words.{PlacedText};

    ghost Value = { PlacedText };

    ghost use Rattle.compact_repr.specs.BufferValue.{buffer_value};

    ghost view = { λ r. buffer_value r.buffer };
}

impl<P: Policy> Repr<P> {
    #[inline]
    fn from_buffer(alloc: Global, buffer: Buffer) -> Self
        ensures { result ≡ buffer_value buffer }
    {
        Repr {
            buffer,
            alloc,
            policy: PhantomData,
        }
    }

    /// Returns the allocator.
    #[inline]
    pub fn allocator(&self) -> Global {
        self.alloc
    }

    /// The length in bytes.
    #[inline]
    pub fn len(&self) -> usize
        ensures value { result ≡ size self.now.text }
        ensures small { result < 2 ^ 63 }
        ensures sound { IsSound self.now }
    {
        match &self.buffer {
            Buffer::Heap(heap) => heap.len(),
            Buffer::Inline(_, inline) => inline.len(),
            Buffer::Static(text) => text.len(),
        }
    }

    /// Returns `true` if the text has no bytes. Compares in each arm: an inline length need not be decoded for that.
    #[inline]
    pub fn is_empty(&self) -> bool
        ensures { IsTrue result ↔ (size self.now.text ≡ 0) }
    {
        match &self.buffer {
            Buffer::Heap(heap) => heap.len() == 0,
            Buffer::Inline(_, inline) => inline.len() == 0,
            Buffer::Static(text) => text.len() == 0,
        }
    }

    /// Returns the text.
    #[inline]
    pub fn as_str(&self) -> &str
        ensures bytes { result.now ≡ utf8 self.now.text }
        ensures text { text_of result.now ≡ self.now.text }
    {
        match &self.buffer {
            Buffer::Heap(heap) => heap.as_str(),
            Buffer::Inline(_, inline) => inline.as_str(),
            Buffer::Static(text) => text.as_static_str(),
        }
    }

    /// Returns the text of a static value, which outlives the value, or `None` if it is not static.
    #[inline]
    pub fn as_static_str(&self) -> Option<&'static str>
        ensures place { IsSome result ↔ IsStatic self.now }
        ensures bytes { IfSome result (λ s. s.now ≡ utf8 self.now.text) }
        ensures text { IfSome result (λ s. text_of s.now ≡ self.now.text) }
    {
        match &self.buffer {
            Buffer::Static(text) => Some(text.as_static_str()),
            _ => None,
        }
    }

    /// The capacity in bytes.
    #[inline]
    pub fn capacity(&self) -> usize
        ensures { result ≡ self.now.placement.capacity }
    {
        match &self.buffer {
            Buffer::Inline(_, _) => INLINE_CAPACITY,
            Buffer::Heap(heap) => heap.capacity(),
            Buffer::Static(text) => text.len(),
        }
    }

    /// Returns `true` if the text is in a heap buffer.
    #[inline]
    pub fn is_heap_allocated(&self) -> bool
        ensures { result ≡ is_heap_place self.now.placement.place }
    {
        matches!(&self.buffer, Buffer::Heap(_))
    }

    /// Returns an inline text packed into 24 bytes, or `None` if it is not inline.
    #[inline]
    pub fn packed(&self) -> Option<[u8; 24]>
        ensures place { IsSome result ↔ (IsInline self.now) }
        ensures bytes { IfSome result (λ bytes. IsPackedFor bytes self.now.text) }
    {
        match &self.buffer {
            Buffer::Inline(_, inline) => Some(inline.packed()),
            _ => None,
        }
    }

    /// Converts a heap value into a `String`, reusing its buffer.
    ///
    /// # Errors
    ///
    /// Returns the value, unchanged, if it is not on the heap.
    #[inline]
    pub fn into_heap_string(self) -> Result<String, Self>
        ensures bytes { IfOk result (λ s. string_bytes s ≡ utf8 self.text) }
        ensures text { IfOk result (λ s. text_of (string_bytes s) ≡ self.text) }
        ensures capacity { IfOk result (λ s. self.placement.capacity ≤ string_capacity s) }
        ensures heap { IfOk result (λ _. IsHeap self) }
        ensures back { IfErr result (λ r. (r ≡ self) × (is_heap_place self.placement.place ≡ false)) }
    {
        let alloc = self.alloc;
        match self.buffer {
            Buffer::Heap(heap) => Ok(heap.into_string()),
            Buffer::Inline(_, inline) => Err(Self::from_buffer(alloc, Buffer::Inline([], inline))),
            Buffer::Static(text) => Err(Self::from_buffer(alloc, Buffer::Static(text))),
        }
    }
}
