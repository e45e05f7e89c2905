//! A process with no memory left.

use std::alloc::{AllocError, Global};

/// Holds all memory that this process can allocate: until it is dropped, every allocation fails.
pub struct Hog {
    blocks: Vec<Vec<u8>>,
}

/// A manual `Drop`, so that no test's proof expands the blocks.
impl Drop for Hog {
    fn drop(self) {
        let Hog { blocks } = self;
        drop(blocks);
    }
}

impl Hog {
    /// Returns the number of blocks.
    pub fn block_count(&self) -> usize {
        self.blocks.len()
    }
}

/// Allocates the whole address space, in ever smaller blocks that are never written.
///
/// # Errors
///
/// `AllocError` if the list of the blocks cannot be allocated.
pub fn take_all(alloc: Global) -> Result<Hog, AllocError> {
    let mut blocks = Vec::with_capacity(alloc, 60_000)?;
    let mut size = 1usize << 46;
    for _ in 0..100_000 {
        match Vec::with_capacity(alloc, size) {
            Ok(block) => {
                if blocks.push(block).is_err() {
                    return Err(AllocError);
                }
            }
            Err(_) => {
                if size <= 8 {
                    break;
                }
                size /= 2;
            }
        }
    }
    Ok(Hog { blocks })
}
