//! A builder that collects short pieces on the stack before it appends them to a string.
ghost use Rattle.std.specs.Prelude.{◌≡◌, ◌<◌, [], ◌++◌, false, IsTrue, IsOk, OnOk, OnErr};
ghost use Rattle.compact_str.specs.Words.{size, text_of, PlacedFor, room_to_append, INLINE_CAPACITY};
ghost use Rattle.compact_str.specs.Room.{IsPlacedBySize};
ghost use Rattle.compact_str.specs.Output.{AppendsUtf8};

use crate::error::ReserveError;
use crate::stack_buffer::{BLOCK, StackBuffer};
use crate::string::PolicyString;
use compact_repr::Policy;
use std::alloc::Global;
use std::marker::Model;
use std::{fmt, mem};

/// The least capacity for a text past its block.
const LONG: usize = 1024;

/// A text under construction, and a stack buffer of pieces not yet appended to it. A contract sees the text of both.
pub struct Builder {
    long: String,
    // The capacity of an empty target, or 0. Before the block, so that at most 256 bytes in a row are zeroed: more would
    // be zeroed by a call.
    target_capacity: usize,
    block: StackBuffer,
    // Whether a piece did not fit in the block. Until then `long` is empty.
    is_long: bool,
    // Whether a piece failed in `write_str`: a `Display` may ignore that and continue.
    is_refused: bool,
}

impl Model for Builder {
    ghost use Rattle.std.specs.Prelude.{◌≡◌, ℕ, List, [], ◌++◌, false};
    ghost use Rattle.compact_str.specs.Collect.{string_text};

    ghost Value = { List ℕ };

    ghost view = { λ g. string_text g.long ++ g.block };

    ghost invariant = { λ g. g.is_long ≡ false → string_text g.long ≡ [] };
}

/// A manual `Drop`: a derived one is expanded in the proof of every function that owns a builder.
impl Drop for Builder {
    #[inline]
    fn drop(self) {
        let Builder {
            long,
            target_capacity: _,
            block: _,
            is_long: _,
            is_refused: _,
        } = self;
        drop(long);
    }
}

#[tactic(auto, using(crate::proofs::CollectFacts::builder_facts))]
impl Builder {
    /// Returns an empty builder of a text for `target`. If that is empty, a long text that fits there and fills half of it
    /// gets a buffer of the same capacity, which `push_onto` then moves into it.
    #[inline]
    pub fn for_target<P: Policy>(target: &PolicyString<P>) -> Self
        ensures { result ≡ [] }
    {
        let target_capacity = if target.is_empty() {
            target.capacity()
        } else {
            0
        };
        Builder {
            long: String::new(target.allocator()),
            target_capacity,
            block: StackBuffer::empty(),
            is_long: false,
            is_refused: false,
        }
    }

    /// Appends the block to the long text, and then `text`. The first time also reserves more.
    #[cold]
    #[inline(never)]
    fn push_str_slow(&mut self, text: &str) -> Result<(), ReserveError>
        ensures { OnOk result (self.new ≡ self.old ++ text_of text.now) }
    {
        self.is_long = true;
        if self.long.is_empty() {
            let len = self.block.as_str().len().saturating_add(text.len());
            let capacity = self.capacity_for(len);
            self.long.reserve_exact(capacity)?;
        }
        self.long.push_str(self.block.as_str())?;
        self.block.clear();
        Ok(self.long.push_str(text)?)
    }

    /// Returns the capacity for a text that begins with `len` bytes: the target's if they fit there and fill half of it,
    /// otherwise 1024, or one block more than a long text.
    fn capacity_for(&self, len: usize) -> usize {
        match self.target_capacity.checked_sub(len) {
            Some(spare) if spare <= len => self.target_capacity,
            _ => len.saturating_add(BLOCK).max(LONG),
        }
    }

    /// Appends the text to `target`, all at once. An empty target with as large a buffer takes the builder's.
    ///
    /// # Errors
    ///
    /// [`ReserveError`] if allocation fails, or failed in `write_str`. `target` is then unchanged.
    #[inline]
    pub fn push_onto<P: Policy>(&mut self, target: &mut PolicyString<P>) -> Result<(), ReserveError>
        ensures text { OnOk result (target.new.text ≡ target.old.text ++ self.old) }
        ensures place { OnOk result
            (PlacedFor P.growth target.old target.new (room_to_append (size self.old))) }
        ensures err { OnErr result (target.new ≡ target.old) }
    {
        if self.is_long {
            return self.push_onto_slow(target);
        }
        target.push_str(self.block.as_str())
    }

    /// The slow path of `push_onto`.
    #[cold]
    #[inline(never)]
    fn push_onto_slow<P: Policy>(
        &mut self,
        target: &mut PolicyString<P>,
    ) -> Result<(), ReserveError>
        ensures text { OnOk result (target.new.text ≡ target.old.text ++ self.old) }
        ensures place { OnOk result
            (PlacedFor P.growth target.old target.new (room_to_append (size self.old))) }
        ensures err { OnErr result (target.new ≡ target.old) }
    {
        if self.is_refused {
            return Err(ReserveError);
        }
        let mut long = mem::replace(&mut self.long, String::new(target.allocator()));
        long.push_str(self.block.as_str())?;
        let mut value = PolicyString::from(long);
        if move_to_empty(&mut value, target) {
            return Ok(());
        }
        target.push_str(value.as_str())
    }
}

/// Moves `value` into an empty `target` with as large a buffer, as if it were appended. Returns whether it did; otherwise
/// changes nothing.
#[tactic(auto, using(crate::proofs::CollectFacts::target_facts))]
fn move_to_empty<P: Policy>(value: &mut PolicyString<P>, target: &mut PolicyString<P>) -> bool
    requires { IsPlacedBySize value.old }
    ensures text { IsTrue result → target.new.text ≡ target.old.text ++ value.old.text }
    ensures place { IsTrue result
        → PlacedFor P.growth target.old target.new (room_to_append (size value.old.text)) }
    ensures left { IsTrue result → IsPlacedBySize value.new }
    ensures others { result ≡ false → (value.new ≡ value.old) × (target.new ≡ target.old) }
{
    if !target.is_empty() || target.capacity() != value.capacity() {
        return false;
    }
    if !target.is_heap_allocated() || !value.is_heap_allocated() {
        return false;
    }
    let nothing = PolicyString::default(value.allocator());
    *target = mem::replace(value, nothing);
    true
}

impl fmt::Write for Builder {
    ghost write_str_gives = { AppendsUtf8 };

    /// Appends `text`.
    ///
    /// # Errors
    ///
    /// `fmt::Error` if allocation fails. Never fails up to 24 bytes.
    #[inline]
    fn write_str(&mut self, text: &str) -> fmt::Result
        ensures ok { IsOk result → AppendsUtf8 self.old text.now self.new }
        ensures err { OnErr result (INLINE_CAPACITY < size (self.old ++ text_of text.now)) }
    {
        if self.block.try_copy_str(text) {
            return Ok(());
        }
        match self.push_str_slow(text) {
            Ok(()) => Ok(()),
            Err(ReserveError) => {
                self.is_refused = true;
                Err(fmt::Error)
            }
        }
    }
}
