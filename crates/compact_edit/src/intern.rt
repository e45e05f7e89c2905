//! The interner: a number for each distinct text.
ghost use Rattle.std.specs.Prelude.{◌≡◌, ◌<◌, ◌≤◌, ◌↔◌, ℕ, List, [], ◌∷◌, ◌++◌, length, map, Some, IsOk, IsSome, IsTrue, IfOk, IfErr, IfNone, IfSome, OnOk, OnErr, option_map, slice_get, vec_capacity};
ghost use Rattle.std.specs.Prelude.{false};
ghost use Rattle.std.specs.Map.Iter.{ShowsInOrder, deref};
ghost use Rattle.compact_str.specs.Text.{text_of};
ghost use Rattle.compact_str.specs.Value.{PlacedText};
ghost use Rattle.compact_str.specs.Order.{text_in};
ghost use Rattle.compact_edit.specs.declared.intern.TheConstants.{MAX_COUNT};
ghost use Rattle.compact_edit.specs.Names.{distinct_texts, texts_of, contains, AppendsNumbersOf, IsRefusal, InternsSome};

use compact_str::{CompactString, ReserveError};
use indexmap::IndexSet;
use indexmap::set::Iter;
use std::alloc::{AllocError, AllocFailed, Global};
use std::marker::Model;
use thiserror::Error;

/// The error of [`Interner::intern`] and [`Interner::intern_all`].
#[derive(Debug, Drop, Error)]
pub enum InternError {
    /// Allocation failed.
    #[error("{0}")]
    Reserve(ReserveError),
    /// All 2^32 - 1 numbers are in use.
    #[error("interner is full")]
    Full,
}

impl From<ReserveError> for InternError {
    ghost use Rattle.compact_edit.specs.declared.intern.InternError.TheVariants.{Reserve};

    ghost from_gives = { λ e error. error ≡ Reserve e };

    /// The case `Reserve`.
    fn from(error: ReserveError) -> Self {
        InternError::Reserve(error)
    }
}

impl From<AllocError> for InternError {
    ghost use Rattle.compact_edit.specs.declared.intern.InternError.TheVariants.{Reserve};

    ghost from_gives = { λ _ error. error ≡ Reserve (record {}) };

    /// The case `Reserve`.
    fn from(_error: AllocError) -> Self {
        InternError::Reserve(ReserveError)
    }
}

/// Drops the value that was not stored.
impl<T: Drop> From<AllocFailed<T>> for InternError {
    ghost use Rattle.compact_edit.specs.declared.intern.InternError.TheVariants.{Reserve};

    ghost from_gives = { λ _ error. error ≡ Reserve (record {}) };

    /// The case `Reserve`.
    fn from(_failed: AllocFailed<T>) -> Self {
        InternError::Reserve(ReserveError)
    }
}

/// The most names of an interner, 2^32 - 1: the count fits a `u32`, like each number.
pub const MAX_COUNT: usize = 4294967295;

/// A set of distinct texts, numbered from 0 in the order of their first occurrence. A number never changes.
///
/// # Examples
///
/// ```
/// let mut names = Interner::new(alloc);
/// let number = names.intern("café")?;
/// assert_eq!(rt; names.intern("café")?, number);
/// assert_eq!(rt; names.name(number), Some("café"));
/// ```
pub struct Interner {
    names: IndexSet<CompactString>,
}

/// A manual `Drop`: a derived one is expanded in the proof of every function that owns an interner.
impl Drop for Interner {
    fn drop(self) {
        let Interner { names } = self;
        drop(names);
    }
}

impl Model for Interner {
    ghost use Rattle.std.specs.Prelude.{List, ℕ, map, length, ◌≤◌};
    ghost use Rattle.indexmap.specs.IndexSet.{IsUnique};
    ghost use Rattle.compact_str.specs.Order.{text_in, same_text};
    ghost use Rattle.compact_edit.specs.declared.intern.TheConstants.{MAX_COUNT};

    ghost Value = { List (List ℕ) };

    ghost view = { λ s. map text_in s.names.keys };

    ghost invariant = { λ s. IsUnique same_text s.names × (length s.names.keys ≤ MAX_COUNT) };
}

impl Interner {
    /// Creates an empty interner, without allocating.
    ///
    /// # Examples
    ///
    /// ```
    /// let names = Interner::new(alloc);
    /// assert_eq!(rt; names.len(), 0);
    /// assert_eq!(rt; names.name(0), None);
    /// ```
    pub fn new(alloc: Global) -> Interner
        ensures { result ≡ [] }
    {
        Interner {
            names: IndexSet::new(alloc),
        }
    }

    /// Creates an empty interner with room for `capacity` names.
    ///
    /// # Errors
    ///
    /// [`ReserveError`] if the table cannot be allocated. Never fails for 0.
    ///
    /// # Examples
    ///
    /// ```
    /// let mut names = Interner::with_capacity(alloc, 100)?;
    /// assert_eq!(rt; names.intern("café")?, 0);
    /// ```
    pub fn with_capacity(alloc: Global, capacity: usize) -> Result<Interner, ReserveError>
        ensures names { IfOk result (λ names. names ≡ []) }
        ensures succeeds { capacity ≡ 0 → IsOk result }
    {
        let names = IndexSet::with_capacity(alloc, capacity)?;
        Ok(Interner { names })
    }

    /// Returns `true` if there are no names.
    ///
    /// # Examples
    ///
    /// ```
    /// assert!(rt; Interner::new(alloc).is_empty());
    /// ```
    pub fn is_empty(&self) -> bool
        ensures { IsTrue result ↔ (self.now ≡ []) }
    {
        self.names.is_empty()
    }

    /// Returns the number of names, at most 2^32 - 1.
    ///
    /// # Examples
    ///
    /// See [`intern`](Interner::intern).
    #[tactic(auto, using(crate::proofs::NameFacts::name_facts))]
    pub fn len(&self) -> usize
        ensures len { result ≡ length self.now }
        ensures distinct { distinct_texts self.now ≡ self.now }
        ensures small { result ≤ MAX_COUNT }
    {
        self.names.len()
    }

    /// Returns the name with this number, or `None` if there is none.
    ///
    /// # Examples
    ///
    /// ```
    /// let mut names = Interner::new(alloc);
    /// let number = names.intern("café")?;
    /// assert_eq!(rt; names.name(number), Some("café"));
    /// assert_eq!(rt; names.name(1), None);
    /// ```
    pub fn name(&self, number: u32) -> Option<&str>
        ensures text { option_map (λ name. text_of name.now) result ≡ slice_get self.now number }
        ensures found { IsSome result ↔ (number < length self.now) }
    {
        let name = self.names.get_index(number as usize)?;
        Some(name.as_str())
    }

    /// Returns the number of `text`, or `None` if it is no name. Adds nothing.
    ///
    /// # Examples
    ///
    /// ```
    /// let mut names = Interner::new(alloc);
    /// let number = names.intern("café")?;
    /// assert_eq!(rt; names.number("café"), Some(number));
    /// assert_eq!(rt; names.number("cafe"), None);
    /// ```
    #[tactic(auto, using(crate::proofs::NameFacts::name_facts))]
    pub fn number(&self, text: &str) -> Option<u32>
        ensures name { IfSome result (λ n. slice_get self.now n ≡ Some (text_of text.now)) }
        ensures known { (n : ℕ) → slice_get self.now n ≡ Some (text_of text.now)
            → result ≡ Some n }
        ensures unknown { IfNone result (contains self.now (text_of text.now) ≡ false) }
    {
        match self.names.get_index_of(text) {
            Some(known) => Some(known as u32),
            None => None,
        }
    }

    /// Returns an iterator over the names, in the order of their numbers.
    ///
    /// # Examples
    ///
    /// ```
    /// let mut names = Interner::new(alloc);
    /// names.intern("né")?;
    /// names.intern("e")?;
    /// let mut all = names.iter();
    /// assert!(rt; all.next().is_some_and(|name| name.as_str() == "né"));
    /// assert!(rt; all.next().is_some_and(|name| name.as_str() == "e"));
    /// assert!(rt; all.next().is_none());
    /// ```
    pub fn iter(&self) -> Iter<'_, CompactString>
        ensures names { map text_in result ≡ self.now }
        ensures runs { ShowsInOrder (deref {X = PlacedText}) }
    {
        self.names.iter()
    }

    /// Returns the number of `text`. If `text` is new, it is copied and gets the next number. A known text is not
    /// copied, and never fails.
    ///
    /// # Errors
    ///
    /// Returns `Reserve` if the copy or the table of names cannot be allocated, and `Full` if all 2^32 - 1 numbers are
    /// in use. The names are unchanged then.
    ///
    /// # Examples
    ///
    /// ```
    /// let mut names = Interner::new(alloc);
    /// assert_eq!(rt; names.intern("é")?, 0);
    /// assert_eq!(rt; names.intern("")?, 1);
    /// assert_eq!(rt; names.intern("é")?, 0);
    /// assert_eq!(rt; names.len(), 2);
    /// ```
    #[tactic(auto, using(crate::proofs::NameFacts::name_facts))]
    pub fn intern(&mut self, text: &str) -> Result<u32, InternError>
        // Returns the number of `text`, which becomes a name if it is new. Names keep their numbers.
        ensures names { OnOk result
            (self.new ≡ distinct_texts (self.old ++ text_of text.now ∷ [])) }
        ensures number { IfOk result (λ n. slice_get self.new n ≡ Some (text_of text.now)) }
        ensures kept { (n : ℕ) (name : List ℕ)
            → slice_get self.old n ≡ Some name → slice_get self.new n ≡ Some name }

        // Fails only for a new text: `Reserve` if allocation fails, `Full` if all numbers are in use.
        // The names are then unchanged.
        ensures succeeds { (n : ℕ) → slice_get self.old n ≡ Some (text_of text.now) → IsOk result }
        ensures cause { IfErr result (IsRefusal self.old (text_of text.now)) }
        ensures err { OnErr result (self.new ≡ self.old) }
    {
        if let Some(known) = self.names.get_index_of(text) {
            return Ok(known as u32);
        }
        self.add(text)
    }

    /// Appends a new text. Not inlined, so that the lookup stays short.
    #[cold]
    #[inline(never)]
    #[tactic(auto, using(crate::proofs::NameFacts::name_facts))]
    fn add(&mut self, text: &str) -> Result<u32, InternError>
        requires new { contains self.old (text_of text.now) ≡ false }
        ensures names { OnOk result
            (self.new ≡ distinct_texts (self.old ++ text_of text.now ∷ [])) }
        ensures number { IfOk result (λ n. slice_get self.new n ≡ Some (text_of text.now)) }
        ensures kept { (n : ℕ) (name : List ℕ)
            → slice_get self.old n ≡ Some name → slice_get self.new n ≡ Some name }
        ensures cause { IfErr result (IsRefusal self.old (text_of text.now)) }
        ensures err { OnErr result (self.new ≡ self.old) }
    {
        if self.len() == MAX_COUNT {
            return Err(InternError::Full);
        }
        let name = CompactString::new(*self.names.allocator(), text)?;
        let Ok((place, _)) = self.names.insert_full(name) else {
            return Err(InternError::Reserve(ReserveError));
        };
        Ok(place as u32)
    }

    /// Interns each text in order, and appends its number to `numbers`. Reserves room for all numbers first. Never
    /// fails if `texts` is empty.
    ///
    /// # Errors
    ///
    /// Returns `Reserve` if there is no room for the numbers; names and numbers are unchanged then. Otherwise returns
    /// the error of the first text that fails: the texts before it are interned, and their numbers appended.
    ///
    /// # Examples
    ///
    /// ```
    /// let mut names = Interner::new(alloc);
    /// let mut numbers = Vec::new(alloc);
    /// names.intern_all(&["né", "e", "né", ""], &mut numbers)?;
    /// assert_eq!(rt; numbers.as_slice(), [0, 1, 0, 2].as_slice());
    /// assert_eq!(rt; names.name(2), Some(""));
    /// ```
    #[tactic(auto, using(crate::proofs::NameFacts::list_facts))]
    pub fn intern_all(&mut self, texts: &[&str], numbers: &mut Vec<u32>) -> Result<(), InternError>
        // Interns the texts, and appends their numbers. Names keep their numbers, and `numbers` its
        // capacity.
        ensures names { OnOk result (self.new ≡ distinct_texts (self.old ++ texts_of texts.now)) }
        ensures numbers { OnOk result
            (AppendsNumbersOf self.new (texts_of texts.now) numbers.old.items numbers.new.items) }
        ensures room { vec_capacity numbers.old ≤ vec_capacity numbers.new }
        ensures kept { (n : ℕ) (name : List ℕ)
            → slice_get self.old n ≡ Some name → slice_get self.new n ≡ Some name }

        // Fails if there is no room for the numbers, and then interns nothing; or at the first text for
        // which `intern` fails, with the texts before it interned.
        ensures succeeds { texts.now ≡ [] → IsOk result }
        ensures err { IfErr result (InternsSome self.old (texts_of texts.now) numbers.old
            self.new numbers.new) }
    {
        // For the proof: the names are distinct, even if `texts` is empty.
        let _distinct = self.len();
        if numbers.reserve(texts.len()).is_err() {
            return Err(InternError::Reserve(ReserveError));
        }
        for text in texts {
            let number = self.intern(text)?;
            numbers.push_reserved(number);
        }
        Ok(())
    }
}
