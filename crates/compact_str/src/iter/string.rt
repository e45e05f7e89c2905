//! Texts appended to a `String`: `append_all`, `Extend` and `FromIterator`.
ghost use Rattle.std.specs.Prelude.{◌≡◌, ◌+◌, ◌<◌, ◌≤◌, ◌++◌, flat_map, OnOk, OnErr, IsOk, length, string_bytes, IfOk};
ghost use Rattle.std.specs.Iterator.{IsFiniteIterable};
ghost use Rattle.std.specs.String.{string_capacity};
ghost use Rattle.compact_str.specs.Words.{size, text_of};
ghost use Rattle.compact_str.specs.Collect.{ForItems, ForDrained, ForAllItems, StopsWithout, string_text, RunGivesText, ExtendsString};
ghost use Rattle.compact_str.specs.Order.{text_in};

use crate::error::ReserveError;
use crate::iter::{AsText, Items};
use crate::string::PolicyString;
use compact_repr::Policy;
use std::alloc::{AllocError, Global};

/// Appends each item of `items` to `line`. Never shrinks the capacity.
///
/// # Errors
///
/// [`ReserveError`] if `line` has no room left for an item and allocation fails. The items before it have been
/// appended, and later ones are not consumed.
///
/// # Examples
///
/// ```
/// let mut line = String::from_str(alloc, "a")?;
/// let names = [CompactString::const_new(alloc, "ä"), CompactString::const_new(alloc, "b")];
/// append_all(&mut line, names)?;
/// assert_eq!(rt; line.as_str(), "aäb");
/// ```
pub fn append_all<T: AsText, U: IntoIterator<Item = T>>(
    line: &mut String,
    items: U,
) -> Result<(), ReserveError>
    requires { IsFiniteIterable U.into_iter_gives U.IntoIter.can_next U.IntoIter.remaining items }
    // Appends the texts in order. Never shrinks the capacity.
    ensures text { OnOk result
        (ForItems (⟦<U as Items>⟧.run items)
        (λ xs. string_text line.new ≡ string_text line.old ++ flat_map T.text xs)) }
    ensures drained { OnOk result
        (ForDrained (⟦<U as Items>⟧.run items)
        (λ xs. string_text line.new ≡ string_text line.old ++ flat_map T.text xs)) }
    ensures capacity { string_capacity line.old ≤ string_capacity line.new }

    // Fails only at a text for which the capacity must grow and cannot. Those before it are then
    // appended.
    ensures succeeds { ForAllItems (⟦<U as Items>⟧.run items)
        (λ xs. length (string_bytes line.old) + size (flat_map T.text xs)
        ≤ string_capacity line.old) → IsOk result }
    ensures err { OnErr result
        (StopsWithout (⟦<U as Items>⟧.run items) T.text (string_capacity line.new)
        (string_text line.old) (string_text line.new)) }
{
    append_texts(line, items)
}

/// The loop of [`append_all`].
///
/// # Errors
///
/// [`ReserveError`] as from `append_all`.
fn append_texts<T: AsText, U: IntoIterator<Item = T>>(
    line: &mut String,
    items: U,
) -> Result<(), ReserveError>
    requires { IsFiniteIterable U.into_iter_gives U.IntoIter.can_next U.IntoIter.remaining items }
    ensures ok { OnOk result
        (ForDrained (⟦<U as Items>⟧.run items)
        (λ xs. string_text line.new ≡ string_text line.old ++ flat_map T.text xs)) }
    ensures capacity { string_capacity line.old ≤ string_capacity line.new }
    ensures err { OnErr result
        (StopsWithout (⟦<U as Items>⟧.run items) T.text (string_capacity line.new)
        (string_text line.old) (string_text line.new)) }
{
    for item in items {
        append_text(line, item.text())?;
    }
    Ok(())
}

/// Reserves first, so that `Err` implies that the capacity was too small.
#[inline]
#[tactic(auto, using(crate::proofs::EditFacts::string_facts))]
fn append_text(line: &mut String, text: &str) -> Result<(), ReserveError>
    ensures ok { OnOk result (string_text line.new ≡ string_text line.old ++ text_of text.now) }
    ensures capacity { string_capacity line.old ≤ string_capacity line.new }
    ensures err { OnErr result
        ((string_text line.new ≡ string_text line.old)
        × (string_capacity line.new < size (string_text line.old) + length text.now)) }
{
    if line.reserve(text.len()).is_err() {
        return Err(ReserveError);
    }
    match line.push_str(text) {
        Ok(()) => Ok(()),
        Err(_) => unreachable!(),
    }
}

impl<P: Policy> Extend<PolicyString<P>> for String {
    ghost extend_gives = { λ s xs t. string_text t ≡ string_text s ++ flat_map text_in xs };

    /// Like `append_all`.
    ///
    /// # Errors
    ///
    /// `AllocError` if allocation fails.
    fn extend<U: IntoIterator<Item = PolicyString<P>>>(
        &mut self,
        values: U,
    ) -> Result<(), AllocError>
        requires { IsFiniteIterable U.into_iter_gives U.IntoIter.can_next U.IntoIter.remaining
            values }
        // As `append_all`.
        ensures { ExtendsString (⟦<U as Items>⟧.run values) text_in self.old result self.new }
    {
        Ok(append_all(self, values)?)
    }
}

impl<P: Policy> FromIterator<PolicyString<P>> for String {
    type Alloc = Global;

    ghost from_iter_gives = { λ xs s. string_text s ≡ flat_map text_in xs };

    /// Concatenates the values into a new `String`.
    ///
    /// # Errors
    ///
    /// `AllocError` if allocation fails. Never fails if all values are empty.
    fn from_iter<U: IntoIterator<Item = PolicyString<P>>>(
        alloc: Global,
        values: U,
    ) -> Result<Self, AllocError>
        requires { IsFiniteIterable U.into_iter_gives U.IntoIter.can_next U.IntoIter.remaining
            values }
        // Concatenates the texts.
        ensures text { IfOk result
            (λ s. ForItems (⟦<U as Items>⟧.run values)
            (λ xs. string_text s ≡ flat_map text_in xs)) }
        ensures drained { IfOk result
            (λ s. ForDrained (⟦<U as Items>⟧.run values)
            (λ xs. string_text s ≡ flat_map text_in xs)) }

        // Never fails if all are empty.
        ensures succeeds { ForAllItems (⟦<U as Items>⟧.run values)
            (λ xs. size (flat_map text_in xs) ≡ 0) → IsOk result }
        ensures allocates { OnErr result
            (RunGivesText (⟦<U as Items>⟧.run values) (flat_map text_in)) }
    {
        let mut line = String::new(alloc);
        match append_all(&mut line, values) {
            Ok(()) => Ok(line),
            Err(_) => Err(AllocError),
        }
    }
}
