//! Appending the items of an iterator.
ghost use Rattle.std.specs.Prelude.{◌≡◌, ◌≤◌, ◌++◌, flat_map, map, OnOk, OnErr, IsOk};
ghost use Rattle.std.specs.Iterator.{IsFiniteIterable};
ghost use Rattle.compact_str.specs.Words.{size, IsBoundary, text_before, infallible_capacity, HasRoomFor};
ghost use Rattle.compact_str.specs.Collect.{ForItems, ForAllItems, Appends, AppendsAll, AppendsUpToRefused, Extends, char_text};

use crate::error::ReserveError;
use crate::iter::element::Element;
use crate::iter::{AsText, Items};
use crate::string::PolicyString;
use compact_repr::Policy;
use std::alloc::AllocError;

/// Appends each piece, and stops at the first error.
#[tactic(auto, using(compact_text::proofs::TextFacts::text_facts, crate::proofs::Facts::extend_facts))]
fn extend_elements<P: Policy, T: Element, U: IntoIterator<Item = T>>(
    value: &mut PolicyString<P>,
    iter: U,
) -> Result<(), ReserveError>
    requires { IsFiniteIterable U.into_iter_gives U.IntoIter.can_next U.IntoIter.remaining iter }
    ensures ok { OnOk result
        (AppendsAll (⟦<U as Items>⟧.run iter) P.growth T.text value.old value.new) }
    ensures succeeds { ForAllItems (⟦<U as Items>⟧.run iter)
        (λ xs. HasRoomFor value.old (size (flat_map T.text xs))) → IsOk result }
    ensures err { OnErr result
        (AppendsUpToRefused (⟦<U as Items>⟧.run iter) P.growth T.text value.old value.new) }
{
    for piece in iter {
        piece.push_to(value)?;
    }
    Ok(())
}

impl<P: Policy> PolicyString<P> {
    /// Appends each item of `texts`, like `push_str`. Ignores `size_hint`.
    ///
    /// # Errors
    ///
    /// [`ReserveError`] if allocation fails. The items before the one that failed have been appended, and later ones
    /// are not consumed; `truncate` at the old length undoes it. Never fails if there is room for all items.
    ///
    /// # Examples
    ///
    /// ```
    /// let mut line = CompactString::new(alloc, "a")?;
    /// line.extend_texts(["ä", "", "bc"])?;
    /// assert_eq!(rt; line.as_str(), "aäbc");
    /// ```
    pub fn extend_texts<T: AsText, U: IntoIterator<Item = T>>(
        &mut self,
        texts: U,
    ) -> Result<(), ReserveError>
        requires { IsFiniteIterable U.into_iter_gives U.IntoIter.can_next U.IntoIter.remaining
            texts }

        // Appends the texts in order, each as `push_str` does.
        ensures text { OnOk result
            (ForItems (⟦<U as Items>⟧.run texts)
            (λ xs. self.new.text ≡ self.old.text ++ flat_map T.text xs)) }
        ensures pushes { OnOk result
            (AppendsAll (⟦<U as Items>⟧.run texts) P.growth T.text self.old self.new) }

        // Keeps the old text at the front, even on failure. Never shrinks the capacity.
        ensures boundary { IsBoundary self.new.text (size self.old.text) }
        ensures front { text_before self.new.text (size self.old.text) ≡ self.old.text }
        ensures room { infallible_capacity self.old ≤ infallible_capacity self.new }

        // Fails at the first text that must allocate and cannot, never if there is room for all.
        ensures succeeds { ForAllItems (⟦<U as Items>⟧.run texts)
            (λ xs. HasRoomFor self.old (size (flat_map T.text xs))) → IsOk result }
        ensures err { OnErr result
            (AppendsUpToRefused (⟦<U as Items>⟧.run texts) P.growth T.text self.old self.new) }
    {
        extend_elements(self, texts)
    }

    /// Appends each character, like `push`. Ignores `size_hint`.
    ///
    /// # Errors
    ///
    /// [`ReserveError`] as from [`extend_texts`](Self::extend_texts).
    ///
    /// # Examples
    ///
    /// ```
    /// let mut line = CompactString::new(alloc, "a")?;
    /// line.extend_chars(['b', 'ä'])?;
    /// assert_eq!(rt; line.as_str(), "abä");
    /// ```
    pub fn extend_chars<U: IntoIterator<Item = char>>(
        &mut self,
        characters: U,
    ) -> Result<(), ReserveError>
        requires { IsFiniteIterable U.into_iter_gives U.IntoIter.can_next U.IntoIter.remaining
            characters }
        // As `extend_texts`.
        ensures { Extends (⟦<U as Items>⟧.run characters) P.growth char_text (λ xs. xs)
            self.old result self.new }
    {
        extend_elements(self, characters)
    }
}

impl<P: Policy, T: AsText> Extend<T> for PolicyString<P> {
    ghost extend_gives = { λ v xs w. Appends P.growth T.text v xs w };

    /// Like `extend_texts`.
    ///
    /// # Errors
    ///
    /// `AllocError` if allocation fails.
    fn extend<U: IntoIterator<Item = T>>(&mut self, texts: U) -> Result<(), AllocError>
        requires { IsFiniteIterable U.into_iter_gives U.IntoIter.can_next U.IntoIter.remaining
            texts }
        // As `extend_texts`.
        ensures { Extends (⟦<U as Items>⟧.run texts) P.growth T.text (flat_map T.text)
            self.old result self.new }
    {
        Ok(self.extend_texts(texts)?)
    }
}

impl<P: Policy> Extend<char> for PolicyString<P> {
    ghost extend_gives = { λ v xs w. Appends P.growth char_text v xs w };

    /// Like `extend_chars`.
    ///
    /// # Errors
    ///
    /// `AllocError` if allocation fails.
    fn extend<U: IntoIterator<Item = char>>(&mut self, characters: U) -> Result<(), AllocError>
        requires { IsFiniteIterable U.into_iter_gives U.IntoIter.can_next U.IntoIter.remaining
            characters }
        // As `extend_texts`.
        ensures { Extends (⟦<U as Items>⟧.run characters) P.growth char_text (λ xs. xs)
            self.old result self.new }
    {
        Ok(self.extend_chars(characters)?)
    }
}

impl<'a, P: Policy> Extend<&'a char> for PolicyString<P> {
    ghost extend_gives = { λ v xs w. Appends P.growth (λ c. char_text c.now) v xs w };

    /// Like `extend_chars`.
    ///
    /// # Errors
    ///
    /// `AllocError` if allocation fails.
    fn extend<U: IntoIterator<Item = &'a char>>(&mut self, references: U) -> Result<(), AllocError>
        requires { IsFiniteIterable U.into_iter_gives U.IntoIter.can_next U.IntoIter.remaining
            references }
        // As `extend_texts`.
        ensures { Extends (⟦<U as Items>⟧.run references) P.growth (λ c. char_text c.now)
            (map (λ c. c.now)) self.old result self.new }
    {
        match extend_elements(self, references) {
            Ok(()) => Ok(()),
            Err(_) => Err(AllocError),
        }
    }
}
