//! Laws: functions that do nothing, whose contracts are laws of the edits, packed bytes, order and hash.
ghost use Rattle.compact_str.specs.Laws.{RemovalUndoesInsertion, TruncationUndoesAppend, AppendUndoesSplit, CloneIsEqual, DecodingUndoesEncoding, PackedBytesStandForOneText};
ghost use Rattle.std.specs.Prelude.{◌≡◌};
ghost use Rattle.std.specs.Hash as fed;
ghost use Rattle.std.specs.Ordering.{ordering_index};
ghost use Rattle.std.specs.List.Sorted.{IsSorted, IsNonDecreasingBy};
ghost use Rattle.compact_str.specs.Words.{utf8};
ghost use Rattle.compact_str.specs.Order.{ByteOrderIsTextOrder, text_cmp};

use crate::string::PolicyString;
use compact_repr::Policy;
use std::hash::Hash;

/// After `insert`, `remove` at the same index may be called and never fails. It returns the character and restores the
/// text.
pub fn removal_undoes_insertion()
    // `specs/Laws.antt` states this and the next laws in full.
    ensures { RemovalUndoesInsertion }
{}

/// After an append, `truncate` at the old length may be called and restores the text.
pub fn truncation_undoes_append()
    ensures { TruncationUndoesAppend }
{}

/// After `split_off`, `push_str` of the tail restores the text.
pub fn append_undoes_split()
    ensures { AppendUndoesSplit }
{}

/// A clone has the text of its source.
pub fn clone_is_equal()
    ensures { CloneIsEqual }
{}

/// `from_utf8` of a string's bytes has its text. On valid bytes `from_utf8_lossy` returns what they encode.
pub fn decoding_undoes_encoding()
    ensures { DecodingUndoesEncoding }
{}

/// No 24 bytes encode two texts: `from_packed` of `packed` has the same text.
pub fn packed_bytes_stand_for_one_text()
    ensures { PackedBytesStandForOneText }
{}

/// Strings are ordered by character as by byte, so `cmp` compares bytes.
#[tactic(auto, using(compact_repr::proofs::ByteOrder::order_facts))]
pub fn byte_order_is_text_order()
    ensures { ByteOrderIsTextOrder }
{}

/// A value hashes like its `str`.
pub fn hash_is_that_of_the_str<P: Policy>(value: &PolicyString<P>)
    ensures { ⟦<PolicyString<P> as Hash>⟧.hash_input value.now ≡ fed.str (utf8 value.now.text) }
{}

/// In a sorted slice the comparisons with any value rise, as `binary_search` requires. Called before a search, it
/// makes an `Err` say where the value belongs.
#[tactic(auto, using(crate::proofs::KeyFacts::search_facts))]
pub fn sorted_row_is_searchable<P: Policy>(row: &[PolicyString<P>], value: &PolicyString<P>)
    requires { IsSorted text_cmp row.now }
    ensures { IsNonDecreasingBy (λ w. ordering_index (text_cmp w value.now)) row.now }
{}
