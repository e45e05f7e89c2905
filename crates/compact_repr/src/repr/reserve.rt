//! Reserving and shrinking.
ghost use Rattle.std.specs.Prelude.{length, ◌≡◌, ◌*◌, ◌<◌, ◌≤◌, ◌^◌, [], false, IfOk, OnOk, OnErr, IsTrue};
ghost use Rattle.compact_repr.specs.Words.{size, text_of, placed_text, IsHeap, fits_in_place, inline_placement, heap_placement, INLINE_CAPACITY, IsPlacedAsNew, PlacedFor, AllocatesFor, owned, room, Shrinks};

use crate::growth::{Policy, grown_capacity};
use crate::heap::HeapBuffer;
use crate::inline::{INLINE_CAPACITY, InlineBuffer};
use crate::repr::{Buffer, Repr};
use std::alloc::{AllocError, Global};

/// The greatest capacity to which a buffer grows by a copy.
const MAX_COPIED: usize = 512;

impl<P: Policy> Repr<P> {
    /// Reserves room for `additional` more bytes.
    ///
    /// # Errors
    ///
    /// Returns `AllocError` if a new buffer cannot be allocated.
    #[inline]
    pub fn reserve(&mut self, additional: usize) -> Result<(), AllocError>
        ensures text { self.new.text ≡ self.old.text }
        ensures place { OnOk result (PlacedFor P.growth self.old self.new (room additional)) }
        ensures room { OnOk result (IsTrue (fits_in_place self.new additional)) }
        ensures allocates { OnErr result (AllocatesFor self.old (room additional)) }
        ensures err { OnErr result (self.new ≡ self.old) }
    {
        if self.fits_in_place(additional) {
            return Ok(());
        }
        self.make_room(additional)
    }

    /// Returns `true` if the value is owned and has room for `additional` more bytes.
    #[inline]
    fn fits_in_place(&self, additional: usize) -> bool
        ensures { result ≡ fits_in_place self.now additional }
    {
        match &self.buffer {
            Buffer::Inline(_, inline) => additional <= INLINE_CAPACITY - inline.len(),
            Buffer::Heap(heap) => heap.has_room(additional),
            Buffer::Static(_) => false,
        }
    }

    /// Reserves room that is lacking: moves a short text inline, and any other to a larger heap buffer.
    ///
    /// # Errors
    ///
    /// Returns `AllocError` if that buffer cannot be allocated.
    #[cold]
    #[inline(never)]
    pub(super) fn make_room(&mut self, additional: usize) -> Result<(), AllocError>
        requires { fits_in_place self.old additional ≡ false }
        ensures text { self.new.text ≡ self.old.text }
        ensures place { OnOk result (PlacedFor P.growth self.old self.new (room additional)) }
        ensures room { OnOk result (IsTrue (fits_in_place self.new additional)) }
        ensures allocates { OnErr result (AllocatesFor self.old (room additional)) }
        ensures err { OnErr result (self.new ≡ self.old) }
        ensures small { size self.old.text < 2 ^ 63 }
    {
        let len = self.len();
        let Some(needed) = len.checked_add(additional) else {
            return Err(AllocError);
        };
        if needed <= INLINE_CAPACITY {
            self.move_inline();
            return Ok(());
        }
        let Some(capacity) = grown_capacity::<P>(len, needed) else {
            return Err(AllocError);
        };
        self.move_to_heap(capacity)
    }

    /// Makes a static value owned; changes no other.
    ///
    /// # Errors
    ///
    /// Returns `AllocError` if the value is static and its copy cannot be allocated.
    #[inline(always)]
    pub fn make_owned(&mut self) -> Result<(), AllocError>
        ensures text { self.new.text ≡ self.old.text }
        ensures place { OnOk result (PlacedFor P.growth self.old self.new owned) }
        ensures room { OnOk result (IsTrue (fits_in_place self.new 0)) }
        ensures allocates { OnErr result (AllocatesFor self.old owned) }
        ensures err { OnErr result (self.new ≡ self.old) }
    {
        // Shows the proof that the text fits in the capacity.
        let _len = self.len();
        let Buffer::Static(text) = &self.buffer else {
            return Ok(());
        };
        let owned = Self::copy_static(self.alloc, text.as_static_str())?;
        *self = owned;
        Ok(())
    }

    /// `new` for `make_owned`. Not inlined, so that an owned value pays nothing for it.
    #[cold]
    #[inline(never)]
    fn copy_static(alloc: Global, text: &'static str) -> Result<Self, AllocError>
        ensures text { IfOk result (λ r. r.text ≡ text_of text.now) }
        ensures place { IfOk result (IsPlacedAsNew P.growth) }
        ensures allocates { OnErr result (INLINE_CAPACITY < length text.now) }
    {
        Self::new(alloc, text)
    }

    /// Shrinks the capacity to at least the length and `min_capacity`. On the heap this takes a new buffer; if it
    /// cannot be allocated, the value is unchanged.
    pub fn shrink_to(&mut self, min_capacity: usize)
        ensures { Shrinks P.growth self.old min_capacity self.new }
    {
        let Buffer::Heap(heap) = &self.buffer else {
            return;
        };
        let goal = heap.len().max(min_capacity);
        if goal <= INLINE_CAPACITY {
            self.move_inline();
            return;
        }
        let capacity = goal.max(P::MIN_HEAP);
        if capacity < heap.capacity()
            && let Ok(smaller) = HeapBuffer::copy_of(self.alloc, heap.as_str(), capacity)
        {
            self.buffer = Buffer::Heap(smaller);
        }
    }

    /// Moves the text, of at most 24 bytes, into the value itself.
    #[inline]
    fn move_inline(&mut self)
        requires { size self.old.text ≤ INLINE_CAPACITY }
        ensures { self.new ≡ placed_text self.old.text inline_placement }
    {
        self.buffer = Buffer::Inline([], InlineBuffer::new(self.as_str()));
    }

    /// Moves the text into a heap buffer of `capacity` bytes, at least its length. A small buffer is replaced: the system
    /// finds a new one sooner than it enlarges the old one.
    ///
    /// # Errors
    ///
    /// Returns `AllocError` if that buffer cannot be allocated.
    #[inline]
    fn move_to_heap(&mut self, capacity: usize) -> Result<(), AllocError>
        requires fits { size self.old.text ≤ capacity }
        requires grows { IsHeap self.old
            → self.old.placement.capacity ≤ capacity }
        ensures ok { OnOk result (self.new ≡ placed_text self.old.text (heap_placement capacity)) }
        ensures err { OnErr result (self.new ≡ self.old) }
    {
        if capacity > MAX_COPIED
            && let Buffer::Heap(heap) = &mut self.buffer
        {
            heap.grow(capacity)?;
            return Ok(());
        }
        let heap = HeapBuffer::copy_of(self.alloc, self.as_str(), capacity)?;
        self.buffer = Buffer::Heap(heap);
        Ok(())
    }
}
