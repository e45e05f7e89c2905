//! Concatenating pieces, with a separator between each two.
ghost use Rattle.std.specs.Prelude.{◌≡◌, ◌⊎◌, ◌<◌, List, [], ◌++◌, IfOk, OnOk, OnErr};
ghost use Rattle.std.specs.Iterator.{Drains, IsFinite};
ghost use Rattle.compact_str.specs.Words.{INLINE_CAPACITY, size, text_of};
ghost use Rattle.compact_str.specs.Room.{IsPlacedBySize};
ghost use Rattle.compact_str.specs.Collect.{PassesInline, join, string_text};

use crate::error::ReserveError;
use crate::iter::element::Element;
use crate::stack_buffer::StackBuffer;
use crate::string::PolicyString;
use compact_repr::Policy;
use std::alloc::Global;
use std::mem;

/// The most bytes of a short piece. Many more are expected after it.
const SHORT: usize = 32;

/// The first capacity of a long text whose pieces are short.
const FIRST_CAPACITY: usize = 1024;

/// The bytes that a separator is expected to have.
const SEPARATOR: usize = 16;

/// The most bytes that are reserved for two more pieces.
const TWO_MORE: usize = 2048;

/// Concatenates the pieces, with `separator` between each two. They are gathered in a block that is zeroed without a call.
/// A text that does not fit there is moved to a `String` whenever the block is full.
#[inline(always)]
pub fn gather<P: Policy, T: Element, I: Iterator<Item = T> + Drop>(
    alloc: Global,
    pieces: I,
    separator: &str,
) -> Result<PolicyString<P>, ReserveError>
    requires can { I.can_next pieces }
    requires ends { IsFinite (I.remaining pieces) }
    ensures ok { IfOk result
        (λ v. (xs : List T) × Drains I.next_gives pieces xs
        × (v.text ≡ join (text_of separator.now) T.text xs)) }
    ensures place { IfOk result IsPlacedBySize }
    ensures err { OnErr result
        (PassesInline I.next_gives (join (text_of separator.now) T.text) pieces) }
{
    let mut pieces = pieces;
    let mut long = String::new(alloc);
    let mut block = StackBuffer::empty();
    let mut between = "";
    while let Some(piece) = pieces.next() {
        push_piece(&between, &mut block, &mut long)?;
        push_piece(&piece, &mut block, &mut long)?;
        between = separator;
    }
    drop(pieces);
    finish(alloc, &mut long, block.as_str())
}

/// Appends a piece to the block, or, if that has no room, both to `long`.
#[inline(always)]
#[tactic(auto, using(crate::proofs::CollectFacts::builder_facts))]
fn push_piece<T: Element>(
    piece: &T,
    block: &mut StackBuffer,
    long: &mut String,
) -> Result<(), ReserveError>
    ensures ok { OnOk result
        (string_text long.new ++ block.new
        ≡ (string_text long.old ++ block.old) ++ T.text piece.now) }
    ensures long { OnOk result
        ((string_text long.new ≡ string_text long.old)
        ⊎ (INLINE_CAPACITY < size (string_text long.new))) }
    ensures err { OnErr result
        (INLINE_CAPACITY < size ((string_text long.old ++ block.old) ++ T.text piece.now)) }
{
    if !piece.try_push_to_block(block) {
        piece.push_after(long, block.as_str())?;
        block.clear();
    }
    Ok(())
}

/// Appends a full block and the text that did not fit in it.
#[cold]
#[inline(never)]
#[tactic(auto, using(crate::proofs::CollectFacts::builder_facts, compact_text::proofs::TextFacts::empty_facts))]
pub fn append_both(long: &mut String, block: &str, text: &str) -> Result<(), ReserveError>
    ensures ok { OnOk result
        (string_text long.new ≡ (string_text long.old ++ text_of block.now) ++ text_of text.now) }
{
    if long.is_empty() {
        long.reserve(first_capacity(block.len(), text.len()))?;
    }
    if !block.is_empty() {
        long.push_str(block)?;
    }
    Ok(long.push_str(text)?)
}

/// Returns the first capacity for `len` bytes and the piece of `last` bytes after them: 1024 for short pieces, else as much
/// again, or enough for two more such pieces with separators.
fn first_capacity(len: usize, last: usize) -> usize {
    if last <= SHORT {
        return FIRST_CAPACITY;
    }
    let both = len.saturating_add(last);
    let two_more = last.saturating_add(SEPARATOR).saturating_mul(2);
    both.saturating_add(both.max(two_more.min(TWO_MORE)))
}

/// Returns `long`, if that is not empty, and the last block as a value. Its capacity is at most twice the length, if memory
/// is found. Takes a reference: a vector that is passed is read as a whole, and waits for the fields that were just written.
#[inline(always)]
#[tactic(auto, using(crate::proofs::CollectFacts::builder_facts))]
fn finish<P: Policy>(
    alloc: Global,
    long: &mut String,
    block: &str,
) -> Result<PolicyString<P>, ReserveError>
    requires { (string_text long.old ≡ []) ⊎ (INLINE_CAPACITY < size (string_text long.old)) }
    ensures text { IfOk result (λ v. v.text ≡ string_text long.old ++ text_of block.now) }
    ensures place { IfOk result IsPlacedBySize }
    ensures err { OnErr result (INLINE_CAPACITY < size (string_text long.old ++ text_of block.now)) }
{
    if long.is_empty() {
        return PolicyString::new(alloc, block);
    }
    long.push_str(block)?;
    if long.capacity() - long.len() > long.len()
        && let Ok(exact) = PolicyString::new(alloc, long.as_str())
    {
        return Ok(exact);
    }
    Ok(PolicyString::from(mem::replace(long, String::new(alloc))))
}
