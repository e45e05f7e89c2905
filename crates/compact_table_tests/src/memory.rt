//! A process without memory, where allocations are granted one by one.

use std::alloc::{AllocError, Global};

/// An allocation of a call, in bytes.
#[derive(Clone, Copy)]
pub enum Allocation {
    /// A new buffer.
    New(usize),
    /// More room in an existing buffer, which moves.
    More(usize),
}

/// The bytes that the C library adds to a block, and the step of its block sizes: a free block serves the allocations
/// of one step.
const BESIDE: usize = 8;

const STEP: usize = 16;

/// The largest grant.
const MAX_SIZE: usize = 1600;

/// The blocks of a step kept for grants, for the whole table: a granted block does not come back. Most allocations are
/// small.
const STOCK: usize = 200;

const STOCK_OF_SMALL: usize = 2000;

/// The greatest step of small blocks.
const SMALL: usize = 8;

/// The blocks of a step that must be left for one more case; none needs that many.
const LEAST: usize = 40;

/// The C library sets the first seven free blocks of a step aside for new buffers; a growing buffer takes the next.
const FOR_MORE: usize = 8;

/// All memory that this process can get, except what is granted. Dropping it frees the memory.
#[derive(Drop)]
pub struct Ration {
    alloc: Global,
    /// For each step, the blocks that a grant frees.
    stock: Vec<Vec<Vec<u8>>>,
    /// The blocks that are never granted.
    taken: Vec<Vec<u8>>,
}

impl Ration {
    /// Takes all memory: from now on, allocations fail unless granted.
    pub fn new(alloc: Global) -> Result<Ration, AllocError> {
        let taken = Vec::with_capacity(alloc, 80_000)?;
        let mut ration = Ration {
            alloc,
            stock: stock(alloc)?,
            taken,
        };
        ration.take_large();
        ration.take_rest();
        Ok(ration)
    }

    /// Returns `true` if there may be too few blocks for one more case.
    pub fn is_low(&self) -> bool {
        for blocks in &self.stock {
            if blocks.len() < LEAST {
                return true;
            }
        }
        false
    }

    /// Grants one allocation. If no block is left, grants nothing, and the call fails again.
    pub fn grant(&mut self, allocation: Allocation) {
        match allocation {
            Allocation::New(size) => self.give_back(size),
            Allocation::More(size) => {
                for _ in 0..FOR_MORE {
                    self.give_back(size);
                }
            }
        }
    }

    /// Grants the first `count` allocations.
    pub fn grant_first(&mut self, allocations: &[Allocation], count: usize) {
        for allocation in allocations.get(..count).unwrap_or(allocations) {
            self.grant(*allocation);
        }
    }

    fn give_back(&mut self, size: usize) {
        if let Some(blocks) = self.stock.get_mut(step_of(size)) {
            drop(blocks.pop());
        }
    }

    /// Takes back unused grants.
    pub fn take_rest(&mut self) {
        let mut size = MAX_SIZE;
        for _ in 0..MAX_SIZE / STEP {
            self.take_all(size);
            size = size.saturating_sub(STEP);
        }
    }

    /// Takes all memory in blocks larger than any grant.
    fn take_large(&mut self) {
        let mut size = 1usize << 46;
        for _ in 0..46 {
            if size <= MAX_SIZE {
                break;
            }
            self.take_all(size);
            size /= 2;
        }
    }

    /// Takes all blocks of a size, without writing to them.
    fn take_all(&mut self, size: usize) {
        for _ in 0..80_000 {
            if !self.take(size) {
                break;
            }
        }
    }

    /// Takes one block. Returns `true` on success.
    fn take(&mut self, size: usize) -> bool {
        let block: Result<Vec<u8>, AllocError> = Vec::with_capacity(self.alloc, size);
        match block {
            Ok(block) => self.taken.push(block).is_ok(),
            Err(_) => false,
        }
    }
}

/// Returns the step that serves an allocation.
fn step_of(size: usize) -> usize {
    size.saturating_add(BESIDE + STEP - 1) / STEP
}

/// Allocates the blocks of each step.
fn stock(alloc: Global) -> Result<Vec<Vec<Vec<u8>>>, AllocError> {
    let mut stock = Vec::new(alloc);
    for step in 0..=step_of(MAX_SIZE) {
        let size = step.saturating_mul(STEP).saturating_sub(BESIDE);
        let count = if step > SMALL { STOCK } else { STOCK_OF_SMALL };
        stock.push(blocks(alloc, size, count)?)?;
    }
    Ok(stock)
}

/// Allocates `count` blocks of a size.
fn blocks(alloc: Global, size: usize, count: usize) -> Result<Vec<Vec<u8>>, AllocError> {
    let mut blocks = Vec::with_capacity(alloc, count)?;
    for _ in 0..count {
        blocks.push(Vec::with_capacity(alloc, size)?)?;
    }
    Ok(blocks)
}
