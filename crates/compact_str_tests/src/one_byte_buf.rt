//! A buffer that shows one byte at a time.

use bytes::Buf;

/// Bytes in chunks of one.
#[derive(Drop)]
pub struct OneByteBuf<'a> {
    pub rest: &'a [u8],
}

impl Buf for OneByteBuf<'_> {
    ghost unread = { λ d. d.rest.now };

    fn remaining(&self) -> usize {
        self.rest.len()
    }

    fn chunk(&self) -> &[u8] {
        &self.rest[..self.rest.len().min(1)]
    }

    fn advance(&mut self, count: usize) {
        self.rest = &self.rest[count..];
    }
}
