//! The bytes of a proof, as its reader gives them.

use std::alloc::{AllocError, Global};
use std::io;
use std::io::Read;

/// How many bytes a read has room for.
const ROOM: usize = 65_536;

/// How many bytes tell which form a proof has.
const FIRST: usize = 64;

/// What was read and not taken yet.
#[derive(Drop)]
pub(crate) struct ByteInput {
    bytes: Vec<u8>,
    // so many of them were read, and so many of these taken
    read: usize,
    taken: usize,
}

/// Whether no text of a proof has this byte.
fn is_foreign(byte: u8) -> bool {
    byte > b'~' || byte < b' ' && byte != b'\t' && byte != b'\n' && byte != b'\r'
}

/// Whether a proof that begins so is in binary. No text of a proof begins with an `a`; where a `d`
/// stands first, a byte that no text has tells.
fn is_binary(first: &[u8]) -> bool {
    match first.split_first() {
        Some((byte, rest)) => {
            *byte == b'a' || *byte == b'd' && rest.iter().any(|byte| is_foreign(*byte))
        }
        None => false,
    }
}

impl ByteInput {
    /// Of a reader that gave nothing.
    pub(crate) fn new(alloc: Global) -> Result<ByteInput, AllocError> {
        Ok(ByteInput {
            bytes: vec![in alloc; 0u8; ROOM]?,
            read: 0,
            taken: 0,
        })
    }

    /// Reads behind what was read, as far as there is room; how many bytes.
    fn read_behind<I: Read>(&mut self, inner: &mut I) -> io::Result<usize> {
        let start = self.read.min(self.bytes.len());
        let count = inner.read(&mut self.bytes[start..])?;
        self.read = start.saturating_add(count);
        Ok(count)
    }

    /// Whether the proof is in binary, by its first bytes, of which none was taken.
    pub(crate) fn look<I: Read>(&mut self, inner: &mut I) -> io::Result<bool> {
        for _ in 0..FIRST {
            if self.read >= FIRST || self.read_behind(inner)? == 0 {
                break;
            }
        }
        let count = self.read.min(self.bytes.len()).min(FIRST);
        Ok(is_binary(&self.bytes[..count]))
    }

    /// The next byte of what was read.
    #[inline]
    pub(crate) fn next(&mut self) -> Option<u8> {
        if self.taken >= self.read {
            return None;
        }
        let byte = self.bytes.get(self.taken).copied()?;
        self.taken = self.taken.saturating_add(1);
        Some(byte)
    }

    /// Reads on, once all that was read is taken; whether there is more.
    pub(crate) fn refill<I: Read>(&mut self, inner: &mut I) -> io::Result<bool> {
        self.read = 0;
        self.taken = 0;
        Ok(self.read_behind(inner)? > 0)
    }
}
