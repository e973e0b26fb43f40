//! Readers and writers that pass all on, and tell a counter of it.

use std::io;
use std::io::{Read, Write};

/// Told of what a reader gave or a writer took.
pub trait Counter {
    /// A piece of a text was read or written.
    fn went_by(&self, piece: &[u8]);
}

/// Reads a text from another reader.
#[derive(Drop)]
pub struct CountedReader<'a, I, C> {
    pub inner: I,
    pub counter: &'a C,
}

impl<I: Read, C: Counter> Read for CountedReader<'_, I, C> {
    ghost remaining = { λ r. I.remaining r.inner };

    fn read(&mut self, buf: &mut [u8]) -> io::Result<usize> {
        let count = self.inner.read(buf)?;
        self.counter.went_by(&buf[..count]);
        Ok(count)
    }
}

/// Writes a proof to another writer.
#[derive(Drop)]
pub struct CountedWriter<'a, I, C> {
    pub inner: I,
    pub counter: &'a C,
}

impl<I: Write, C: Counter> Write for CountedWriter<'_, I, C> {
    ghost contents = { λ w. I.contents w.inner };

    fn write(&mut self, buf: &[u8]) -> io::Result<usize> {
        let count = self.inner.write(buf)?;
        self.counter.went_by(&buf[..count]);
        Ok(count)
    }

    fn flush(&mut self) -> io::Result<()> {
        self.inner.flush()
    }
}
