//! Collecting texts and characters.
ghost use Rattle.std.specs.Prelude.{◌≡◌, ◌+◌, ◌≤◌, IsOk, flat_map, fold, map, IfOk, OnErr};
ghost use Rattle.std.specs.Iterator.{IsFiniteIterable};
ghost use Rattle.compact_str.specs.Words.{INLINE_CAPACITY, size};
ghost use Rattle.compact_str.specs.Room.{IsPlacedBySize};
ghost use Rattle.compact_str.specs.Collect.{ForItems, ForAllItems, ForDrained, RunPassesInline, Collects};

use crate::error::ReserveError;
use crate::iter::element::Element;
use crate::iter::gather::gather;
use crate::iter::{AsText, Items};
use crate::string::PolicyString;
use compact_repr::Policy;
use std::alloc::{AllocError, Global};

/// Concatenates the pieces.
fn collect_elements<P: Policy, T: Element, U: IntoIterator<Item = T>>(
    alloc: Global,
    iter: U,
) -> Result<PolicyString<P>, ReserveError>
    requires { IsFiniteIterable U.into_iter_gives U.IntoIter.can_next U.IntoIter.remaining iter }
    ensures ok { IfOk result
        (λ v. ForDrained (⟦<U as Items>⟧.run iter)
        (λ xs. v.text ≡ flat_map T.text xs)) }
    ensures place { IfOk result IsPlacedBySize }
    ensures err { OnErr result
        (RunPassesInline (⟦<U as Items>⟧.run iter) (flat_map T.text)) }
{
    gather(alloc, iter.into_iter(), "")
}

impl<P: Policy> PolicyString<P> {
    /// Concatenates `texts`, like `collect`. The result is inline up to 24 bytes, else on the heap.
    ///
    /// Does not use `size_hint`. Allocates at most once up to 240 bytes. A longer text grows like a `String`, and takes at most
    /// twice its length in the end, if memory is found.
    ///
    /// # Errors
    ///
    /// [`ReserveError`] if allocation fails. Never fails up to 24 bytes.
    ///
    /// # Examples
    ///
    /// ```
    /// let name = CompactString::from_texts(alloc, ["caf", "", "é"])?;
    /// assert_eq!(rt; name.as_str(), "café");
    ///
    /// let full = CompactString::from_texts(alloc, ["twelve bytes", "twelve more."])?;
    /// assert_eq!(rt; full.len(), 24);
    /// assert!(rt; !full.is_heap_allocated());
    /// ```
    pub fn from_texts<T: AsText, U: IntoIterator<Item = T>>(
        alloc: Global,
        texts: U,
    ) -> Result<Self, ReserveError>
        requires { IsFiniteIterable U.into_iter_gives U.IntoIter.can_next U.IntoIter.remaining
            texts }

        // Concatenates the texts: inline up to 24 bytes, else on the heap.
        ensures text { IfOk result
            (λ v. ForItems (⟦<U as Items>⟧.run texts)
            (λ xs. v.text ≡ flat_map T.text xs)) }
        ensures drained { IfOk result
            (λ v. ForDrained (⟦<U as Items>⟧.run texts)
            (λ xs. v.text ≡ flat_map T.text xs)) }
        ensures size { IfOk result
            (λ v. ForItems (⟦<U as Items>⟧.run texts)
            (λ xs. size v.text ≡ fold (λ n text. n + size (T.text text)) 0 xs)) }
        ensures place { IfOk result IsPlacedBySize }

        // Never fails up to 24 bytes.
        ensures succeeds { ForAllItems (⟦<U as Items>⟧.run texts)
            (λ xs. size (flat_map T.text xs) ≤ INLINE_CAPACITY) → IsOk result }
        ensures allocates { OnErr result
            (RunPassesInline (⟦<U as Items>⟧.run texts) (flat_map T.text)) }
    {
        collect_elements(alloc, texts)
    }

    /// Collects characters, like `collect`. Allocates like [`from_texts`](Self::from_texts).
    ///
    /// # Errors
    ///
    /// [`ReserveError`] as from `from_texts`.
    ///
    /// # Examples
    ///
    /// ```
    /// let name = CompactString::from_chars(alloc, "Äpfel".chars().filter(|c| c.is_ascii()))?;
    /// assert_eq!(rt; name.as_str(), "pfel");
    /// ```
    pub fn from_chars<U: IntoIterator<Item = char>>(
        alloc: Global,
        characters: U,
    ) -> Result<Self, ReserveError>
        requires { IsFiniteIterable U.into_iter_gives U.IntoIter.can_next U.IntoIter.remaining
            characters }
        // As `from_texts`.
        ensures { Collects (⟦<U as Items>⟧.run characters) (λ xs. xs) result }
    {
        collect_elements(alloc, characters)
    }
}

impl<P: Policy, T: AsText> FromIterator<T> for PolicyString<P> {
    type Alloc = Global;

    ghost from_iter_gives = { λ xs v. (v.text ≡ flat_map T.text xs) × IsPlacedBySize v };

    /// Like `from_texts`. Callers of `collect` know the text and the place, but not that up to 24 bytes never fail.
    ///
    /// # Errors
    ///
    /// `AllocError` if allocation fails.
    fn from_iter<U: IntoIterator<Item = T>>(alloc: Global, texts: U) -> Result<Self, AllocError>
        requires { IsFiniteIterable U.into_iter_gives U.IntoIter.can_next U.IntoIter.remaining
            texts }
        // As `from_texts`.
        ensures { Collects (⟦<U as Items>⟧.run texts) (flat_map T.text) result }
    {
        Ok(Self::from_texts(alloc, texts)?)
    }
}

impl<P: Policy> FromIterator<char> for PolicyString<P> {
    type Alloc = Global;

    ghost from_iter_gives = { λ xs v. (v.text ≡ xs) × IsPlacedBySize v };

    /// Like `from_chars`.
    ///
    /// # Errors
    ///
    /// `AllocError` if allocation fails.
    fn from_iter<U: IntoIterator<Item = char>>(
        alloc: Global,
        characters: U,
    ) -> Result<Self, AllocError>
        requires { IsFiniteIterable U.into_iter_gives U.IntoIter.can_next U.IntoIter.remaining
            characters }
        // As `from_texts`.
        ensures { Collects (⟦<U as Items>⟧.run characters) (λ xs. xs) result }
    {
        Ok(Self::from_chars(alloc, characters)?)
    }
}

impl<'a, P: Policy> FromIterator<&'a char> for PolicyString<P> {
    type Alloc = Global;

    ghost from_iter_gives = { λ xs v. (v.text ≡ map (λ c. c.now) xs) × IsPlacedBySize v };

    /// Like `from_chars`.
    ///
    /// # Errors
    ///
    /// `AllocError` if allocation fails.
    fn from_iter<U: IntoIterator<Item = &'a char>>(
        alloc: Global,
        references: U,
    ) -> Result<Self, AllocError>
        requires { IsFiniteIterable U.into_iter_gives U.IntoIter.can_next U.IntoIter.remaining
            references }
        // As `from_texts`.
        ensures { Collects (⟦<U as Items>⟧.run references) (map (λ c. c.now)) result }
    {
        Ok(collect_elements(alloc, references)?)
    }
}
