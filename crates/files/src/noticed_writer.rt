//! A writer that keeps the last error, for words about a fault.
ghost use Rattle.std.specs.Prelude.{◌≡◌};

use std::io;
use std::io::Write;

/// Writes to another writer, and keeps the last error that it answered, and whether it was to write
/// anything.
#[derive(Drop)]
pub struct NoticedWriter<O> {
    inner: O,
    error: Option<io::Error>,
    is_begun: bool,
}

impl<O> NoticedWriter<O> {
    /// A writer to which nothing was written.
    pub fn of(inner: O) -> NoticedWriter<O>
        ensures { result.inner ≡ inner }
    {
        NoticedWriter {
            inner,
            error: None,
            is_begun: false,
        }
    }

    /// The last error that a write or a flush answered, if any.
    pub fn error(&self) -> Option<io::Error> {
        self.error
    }

    /// Whether bytes were to be written, also where none of them was taken.
    pub fn is_begun(&self) -> bool {
        self.is_begun
    }
}

impl<O: Write> Write for NoticedWriter<O> {
    ghost contents = { λ w. O.contents w.inner };

    fn write(&mut self, buf: &[u8]) -> io::Result<usize> {
        self.is_begun = self.is_begun || !buf.is_empty();
        match self.inner.write(buf) {
            Ok(count) => Ok(count),
            Err(error) => {
                self.error = Some(error);
                Err(error)
            }
        }
    }

    fn flush(&mut self) -> io::Result<()> {
        match self.inner.flush() {
            Ok(()) => Ok(()),
            Err(error) => {
                self.error = Some(error);
                Err(error)
            }
        }
    }
}
