//! Lines of progress that also say how many cubes are open.

use spread::OpenCount;
use std::io;
use std::io::Write;

/// Passes lines on, each with how many of the wanted cubes are open at its end.
#[derive(Drop)]
pub(crate) struct OpenLines<'a, 'b, E> {
    pub(crate) lines: &'a mut E,
    pub(crate) open: &'b OpenCount,
    pub(crate) wanted: usize,
}

impl<E: Write> Write for OpenLines<'_, '_, E> {
    /// Writes no more than the rest of one line.
    fn write(&mut self, buf: &[u8]) -> io::Result<usize> {
        let Some(end) = buf.iter().position(|byte| *byte == b'\n') else {
            return self.lines.write(buf);
        };
        let (open, wanted) = (self.open.get(), self.wanted);
        self.lines.write_all(&buf[..end])?;
        writeln!(self.lines, ", {open} of {wanted} open")?;
        Ok(end + 1)
    }

    fn flush(&mut self) -> io::Result<()> {
        self.lines.flush()
    }
}
