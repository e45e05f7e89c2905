//! A checksum over all that is seen of a text.

use compact_edit::Reply;
use compact_str::{CompactString, Standard};

/// A number that others are mixed into.
#[derive(Drop)]
pub struct Checksum {
    pub mixed: u64,
}

impl Checksum {
    /// Mixes a number in.
    fn add(&mut self, number: u64) {
        let mixed = self.mixed ^ number;
        self.mixed = mixed.wrapping_mul(1099511628211).rotate_left(5);
    }

    fn add_bytes(&mut self, bytes: &[u8]) {
        for byte in bytes {
            self.add(*byte as u64);
        }
    }

    /// Mixes the reply to an edit in.
    pub fn add_reply(&mut self, reply: Option<Reply<Standard>>) {
        match reply {
            Some(Reply::Done) => self.add(1),
            Some(Reply::Char(None)) => self.add(2),
            Some(Reply::Char(Some(character))) => self.add(character as u64),
            Some(Reply::Text(text)) => self.add_text(&text),
            Some(Reply::BadPosition) => self.add(3),
            Some(Reply::Refused(_)) | None => self.add(4),
        }
    }

    /// Mixes in the length and bytes of a text, and of its 24 bytes the specified ones: the text and the last byte.
    pub fn add_text(&mut self, text: &CompactString) {
        self.add(text.len() as u64);
        self.add_bytes(text.as_bytes());
        if let Some(row) = text.packed() {
            self.add_bytes(row.get(..text.len()).unwrap_or(&[]));
            self.add(row[23] as u64);
        }
    }

    /// Mixes in all 24 bytes of a text.
    pub fn add_value(&mut self, text: &CompactString) {
        if let Some(row) = text.packed() {
            self.add_bytes(&row);
        }
    }
}
