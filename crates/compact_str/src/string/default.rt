//! The empty string: `default`, and the traits `Emptied` and `MadeWith`, for `mem::try_take` and `or_default`.
ghost use Rattle.std.specs.Prelude.{◌≡◌, [], IfOk, IsOk, ◌<◌};
ghost use Rattle.compact_str.specs.Words.{placed_text, inline_placement, utf8};

use crate::string::PolicyString;
use compact_repr::{Policy, Repr};
use std::alloc::{AllocError, Global};
use std::default::{Emptied, MadeWith};

impl<P: Policy> Emptied for PolicyString<P> {
    ghost is_emptied = { λ v. v ≡ placed_text [] inline_placement };

    /// Returns an empty string, for `mem::try_take`.
    ///
    /// # Errors
    ///
    /// Never fails: an empty string is inline.
    #[inline]
    fn emptied(like: &Self) -> Result<Self, AllocError>
        ensures empty { IfOk result (λ v. v ≡ placed_text [] inline_placement) }
        ensures succeeds { IsOk result }
    {
        Ok(Self::default(like.allocator()))
    }
}

impl<P: Policy> MadeWith<Global> for PolicyString<P> {
    ghost is_made_with = { λ v. v ≡ placed_text [] inline_placement };

    /// Returns an empty string, for `or_default` of a map.
    #[inline]
    fn made_with(alloc: Global) -> Self {
        Self::default(alloc)
    }
}

impl<P: Policy> PolicyString<P> {
    /// Creates an empty string, inline and without allocating. Not the trait `Default`, which takes no allocator.
    ///
    /// # Examples
    ///
    /// ```
    /// let name = CompactString::default(alloc);
    /// assert!(rt; name.is_empty());
    /// assert_eq!(rt; name.capacity(), 24);
    /// ```
    #[inline]
    pub fn default(alloc: Global) -> Self
        ensures value { result ≡ placed_text [] inline_placement }
        ensures bytes { utf8 result.text ≡ [] }
    {
        PolicyString {
            repr: Repr::empty(alloc),
        }
    }
}
