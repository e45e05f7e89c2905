//! A text that is edited, and a checksum over all that is seen of it.

use crate::inline_edits::checksum::Checksum;
use crate::inline_edits::drawn::edit;
use compact_edit::{Edit, Reply, run};
use compact_str::{CompactString, ReserveError, Standard};
use compact_testing::random::Random;
use std::alloc::Global;

/// A text of at most 24 bytes, an earlier one, and a checksum.
#[derive(Drop)]
pub struct Session {
    value: CompactString,
    other: CompactString,
    random: Random,
    checksum: Checksum,
}

impl Session {
    /// Creates a session with the empty text.
    pub fn new(alloc: Global, seed: u64) -> Self {
        Session {
            value: CompactString::default(alloc),
            other: CompactString::default(alloc),
            random: Random::new(seed),
            checksum: Checksum { mixed: 0 },
        }
    }

    pub fn text(&self) -> &str {
        self.value.as_str()
    }

    pub fn checksum(&self) -> u64 {
        self.checksum.mixed
    }

    /// Makes a random edit, and mixes its reply and the text into the checksum. Sometimes it first makes the text
    /// anew, from itself or from its 24 bytes, or keeps it to be copied later.
    pub fn step(&mut self, alloc: Global) -> Result<(), ReserveError> {
        match self.random.below(32) {
            0 => self.value = CompactString::new(alloc, self.value.as_str())?,
            1 => self.read_again(alloc),
            2 => self.other = self.value.clone()?,
            _ => {}
        }
        let reply = self.run_one(alloc)?;
        self.checksum.add_reply(reply);
        self.checksum.add_text(&self.value);
        Ok(())
    }

    /// Makes the value from its 24 bytes.
    fn read_again(&mut self, alloc: Global) {
        if let Some(bytes) = self.value.packed() {
            if let Some(value) = CompactString::from_packed(alloc, &bytes) {
                self.value = value;
            }
        }
    }

    /// Runs one edit, or copies the other text. A wiped value is mixed in whole.
    fn run_one(&mut self, alloc: Global) -> Result<Option<Reply<Standard>>, ReserveError> {
        let len = self.value.len();
        let Some(edit) = edit(&mut self.random, len) else {
            self.value.clone_from(&self.other)?;
            return Ok(Some(Reply::Done));
        };
        let is_wiped = matches!(edit, Edit::Zeroize);
        let mut replies = Vec::new(alloc);
        run(&mut self.value, &[edit], &mut replies)?;
        if is_wiped {
            self.checksum.add_value(&self.value);
        }
        Ok(replies.pop())
    }
}
