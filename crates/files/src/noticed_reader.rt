//! A reader that keeps the first bytes and the last error, for words about a fault.
ghost use Rattle.std.specs.Prelude.{◌≡◌};

use crate::first_bytes::FirstBytes;
use std::io;
use std::io::Read;

/// Reads from another reader, and keeps the first bytes that it gave and the last error that it
/// answered.
#[derive(Drop)]
pub struct NoticedReader<I> {
    inner: I,
    first_bytes: FirstBytes,
    error: Option<io::Error>,
}

impl<I> NoticedReader<I> {
    /// A reader of which nothing was read.
    pub fn of(inner: I) -> NoticedReader<I>
        ensures { result.inner ≡ inner }
    {
        NoticedReader {
            inner,
            first_bytes: FirstBytes::new(),
            error: None,
        }
    }

    /// The first bytes that it gave.
    pub fn beginning(&self) -> &[u8] {
        self.first_bytes.bytes()
    }

    /// The last error that it answered, if any.
    pub fn error(&self) -> Option<io::Error> {
        self.error
    }
}

impl<I: Read> Read for NoticedReader<I> {
    ghost remaining = { λ r. I.remaining r.inner };

    fn read(&mut self, buf: &mut [u8]) -> io::Result<usize> {
        match self.inner.read(buf) {
            Ok(count) => {
                self.first_bytes.add(&buf[..count]);
                Ok(count)
            }
            Err(error) => {
                self.error = Some(error);
                Err(error)
            }
        }
    }
}
