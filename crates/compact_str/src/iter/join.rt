//! Joining the items of an iterator.
ghost use Rattle.std.specs.Prelude.{flat_map};
ghost use Rattle.std.specs.Iterator.{IsFinite};
ghost use Rattle.compact_str.specs.Words.{text_of, utf8};
ghost use Rattle.compact_str.specs.Collect.{Joins, join};

use crate::error::ReserveError;
use crate::iter::AsText;
use crate::iter::gather::gather;
use crate::string::CompactString;
use std::alloc::Global;

/// Concatenating and joining, for iterators of texts.
pub trait CompactStringExt: Iterator {
    /// Concatenates the items. The result is inline up to 24 bytes, else on the heap. Ignores `size_hint`.
    ///
    /// # Errors
    ///
    /// [`ReserveError`] if allocation fails. Never fails up to 24 bytes.
    ///
    /// # Examples
    ///
    /// ```
    /// let name = ["caf", "é"].into_iter().concat_compact(alloc)?;
    /// assert_eq!(rt; name.as_str(), "café");
    /// ```
    final fn concat_compact(self, alloc: Global) -> Result<CompactString, ReserveError>
    where
        Self: Sized + Drop,
        Self::Item: AsText,
        requires can { Self.can_next self }
        requires ends { IsFinite (Self.remaining self) }
        ensures { Joins Self.next_gives (flat_map Self.Item.text)
            (flat_map (λ x. utf8 (Self.Item.text x))) self result }
    {
        CompactString::from_texts(alloc, self)
    }

    /// Concatenates the items with `separator` between each two, even if they are empty. The result is inline up to 24
    /// bytes, else on the heap. Ignores `size_hint`.
    ///
    /// # Errors
    ///
    /// [`ReserveError`] if allocation fails. Never fails up to 24 bytes.
    ///
    /// # Examples
    ///
    /// ```
    /// let path = ["usr", "", "café"].into_iter().join_compact(alloc, "/")?;
    /// assert_eq!(rt; path.as_str(), "usr//café");
    /// ```
    final fn join_compact(
        self,
        alloc: Global,
        separator: &str,
    ) -> Result<CompactString, ReserveError>
    where
        Self: Sized + Drop,
        Self::Item: AsText,
        requires can { Self.can_next self }
        requires ends { IsFinite (Self.remaining self) }
        ensures { Joins Self.next_gives (join (text_of separator.now) Self.Item.text)
            (join separator.now (λ x. utf8 (Self.Item.text x))) self result }
    {
        gather(alloc, self, separator)
    }
}

impl<I: Iterator> CompactStringExt for I {}
