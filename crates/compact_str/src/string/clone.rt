//! Cloning.
ghost use Rattle.std.specs.Prelude.{◌≡◌, ◌≤◌, Some, OnOk, OnErr, IsOk, IsTrue, not};
ghost use Rattle.compact_str.specs.Words.{size, IsHeap, clone_allocates, clone, infallible_capacity};
ghost use Rattle.compact_str.specs.Edits.{IsPlacedAsCloned, CloneFromAllocates};

use crate::error::ReserveError;
use crate::string::PolicyString;
use compact_repr::Policy;
use std::alloc::AllocError;

impl<P: Policy> Clone for PolicyString<P> {
    ghost is_clone = { λ v w. (clone P.growth v ≡ Some w) × (w.text ≡ v.text) };

    ghost is_infallible = { λ v. IsTrue (not (clone_allocates v)) };

    /// Copies the string. An inline or static one keeps its place and never allocates; a heap one is copied as by
    /// `new`.
    ///
    /// # Errors
    ///
    /// `AllocError` if copying a heap string of more than 24 bytes fails.
    #[inline(always)]
    fn clone(&self) -> Result<Self, AllocError> {
        let repr = self.repr.try_clone()?;
        Ok(PolicyString { repr })
    }
}

impl<P: Policy> PolicyString<P> {
    /// Replaces this string with a clone of `source`. Reuses this string's buffer if `source` is on the heap and fits;
    /// otherwise copies a heap `source` as by `new`, and any other with its place and capacity.
    ///
    /// # Errors
    ///
    /// [`ReserveError`] if allocation fails. Never fails if `source` is not on the heap, has at most 24 bytes, or fits
    /// in the capacity that this string owns.
    ///
    /// # Examples
    ///
    /// ```
    /// let source = CompactString::new(alloc, "exactly twenty-five bytes")?;
    /// let mut target = CompactString::with_capacity(alloc, 100)?;
    /// target.clone_from(&source)?;
    /// assert_eq!(rt; target.as_str(), "exactly twenty-five bytes");
    /// assert_eq!(rt; target.capacity(), 100);
    /// ```
    pub fn clone_from(&mut self, source: &Self) -> Result<(), ReserveError>
        // Copies the text of `source`. If that is on the heap and fits, keeps place and capacity.
        ensures text { OnOk result (self.new.text ≡ source.now.text) }
        ensures place { OnOk result
            (IsPlacedAsCloned P.growth self.old source.now self.new) }

        // Fails only if copying a heap `source` that does not fit fails. It is then unchanged.
        ensures succeeds { size source.now.text ≤ infallible_capacity self.old → IsOk result }
        ensures succeeds_unless_heap { ¬ IsHeap source.now → IsOk result }
        ensures allocates { OnErr result (CloneFromAllocates self.old source.now) }
        ensures err { OnErr result (self.new ≡ self.old) }
    {
        if let Some(text) = source.repr.heap_str()
            && self.repr.try_assign(text)
        {
            return Ok(());
        }
        let copy = source.repr.try_clone()?;
        self.repr = copy;
        Ok(())
    }
}
