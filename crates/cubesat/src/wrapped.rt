//! Texts of help, which the parser doesn't wrap, in lines that fit a terminal.

use std::io;
use std::io::Write;

/// How many columns a terminal has at least.
const COLUMNS: usize = 80;

/// The part of a line that may go on in the next one: what stands behind the option or the command that
/// it explains, or all of it.
fn explanation_in(line: &str) -> &str {
    let line = line.trim_start();
    match line.split_once("  ") {
        Some((_, explanation)) => explanation.trim_start(),
        None => line,
    }
}

fn write_blanks<W: Write>(out: &mut W, count: usize) -> io::Result<()> {
    for _ in 0..count {
        out.write_all(b" ")?;
    }
    Ok(())
}

/// Writes words from a column on, in as many lines as they need.
fn write_words<W: Write>(out: &mut W, words: &str, indent: usize) -> io::Result<()> {
    let mut column = indent;
    for word in words.split(' ') {
        if column > indent {
            if column.saturating_add(word.len()) >= COLUMNS {
                out.write_all(b"\n")?;
                write_blanks(out, indent)?;
                column = indent;
            } else {
                out.write_all(b" ")?;
                column = column.saturating_add(1);
            }
        }
        out.write_all(word.as_bytes())?;
        column = column.saturating_add(word.len());
    }
    Ok(())
}

/// Writes a text in lines of 80 columns at most, where its words allow that.
pub(crate) fn write_wrapped<W: Write>(out: &mut W, text: &str) -> io::Result<()> {
    for line in text.lines() {
        let explanation = explanation_in(line);
        let before = line.strip_suffix(explanation).unwrap_or("");
        out.write_all(before.as_bytes())?;
        write_words(out, explanation, before.len())?;
        out.write_all(b"\n")?;
    }
    Ok(())
}
