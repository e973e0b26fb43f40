//! A line of a text, with a mark below a place.

use crate::excerpt::Excerpt;
use std::fmt;
use std::fmt::{Display, Formatter};
use std::io::Write;

/// How many columns of a line are shown at most.
const SHOWN: usize = 60;

/// Bytes as they are shown: `?` for each that isn't a printable character of ASCII.
#[derive(Clone, Copy)]
struct Printable<'a> {
    bytes: &'a [u8],
}

impl Display for Printable<'_> {
    fn fmt<W: fmt::Write>(&self, f: &mut Formatter<W>) -> fmt::Result {
        for byte in self.bytes {
            let shown = match *byte {
                b' '..=b'~' => char::from(*byte),
                _ => '?',
            };
            write!(f, "{shown}")?;
        }
        Ok(())
    }
}

/// So many blanks.
#[derive(Clone, Copy)]
struct Blanks {
    count: usize,
}

impl Display for Blanks {
    fn fmt<W: fmt::Write>(&self, f: &mut Formatter<W>) -> fmt::Result {
        for _ in 0..self.count {
            write!(f, " ")?;
        }
        Ok(())
    }
}

/// Shows the place's line, and marks the place below it; nothing where the line is empty.
pub(crate) fn show_place<E: Write>(out: &mut E, excerpt: &Excerpt) {
    let line = excerpt.line();
    if line.is_empty() {
        return;
    }
    let bytes = &line[..line.len().min(SHOWN)];
    let shown = Printable { bytes };
    let cut = if excerpt.is_cut() { ".." } else { "" };
    let blanks = Blanks {
        count: cut.len() + excerpt.before(),
    };
    let _ = writeln!(out, "c   {cut}{shown}\nc   {blanks}^");
}
