//! The name of a file, as it is printed.

use std::fmt;
use std::fmt::{Display, Formatter};

/// A file's name, with `?` in place of each control character, so that it stays on its line.
#[derive(Clone, Copy)]
pub(crate) struct Name<'a> {
    text: &'a str,
}

impl<'a> Name<'a> {
    pub(crate) fn of(text: &'a str) -> Name<'a> {
        Name { text }
    }
}

impl Display for Name<'_> {
    fn fmt<W: fmt::Write>(&self, f: &mut Formatter<W>) -> fmt::Result {
        for character in self.text.chars() {
            let shown = if character.is_control() {
                '?'
            } else {
                character
            };
            write!(f, "{shown}")?;
        }
        Ok(())
    }
}
