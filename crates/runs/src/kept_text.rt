//! A reader whose bytes are kept by a writer.

use std::io;
use std::io::{ErrorKind, Read, Write};

/// Reads from another reader, and writes what that gives to a writer, if there is one.
#[derive(Drop)]
pub(crate) struct KeptText<I, K> {
    pub(crate) inner: I,
    pub(crate) kept: Option<K>,
    /// Whether a write has failed.
    pub(crate) is_unwritten: bool,
}

impl<I, K: Write> KeptText<I, K> {
    /// Writes what was read; whether that is done.
    fn keep(&mut self, bytes: &[u8]) -> bool {
        match &mut self.kept {
            Some(kept) => kept.write_all(bytes).is_ok(),
            None => true,
        }
    }

    /// Ends what is written; whether that is done.
    pub(crate) fn end(&mut self) -> bool {
        match &mut self.kept {
            Some(kept) => kept.flush().is_ok(),
            None => true,
        }
    }
}

impl<I: Read, K: Write> Read for KeptText<I, K> {
    fn read(&mut self, buf: &mut [u8]) -> io::Result<usize> {
        let count = self.inner.read(buf)?;
        if self.keep(&buf[..count]) {
            return Ok(count);
        }
        self.is_unwritten = true;
        Err(io::Error::from(ErrorKind::Other))
    }
}
