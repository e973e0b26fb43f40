//! The name of a file in a command line for the shell.

use std::fmt;
use std::fmt::{Display, Formatter};

/// What commands call standard input, in place of a file's name.
const STANDARD_INPUT: &str = "standard input";

/// What stands for a name that can't be shown.
const UNSHOWN: &str = "FILE";

/// The words behind a program's name that make it read a file: a space and the file's name, in
/// quotes where the shell needs them; nothing for standard input; and ` FILE` in place of a name
/// with control characters.
#[derive(Clone, Copy)]
pub(crate) struct Arguments<'a> {
    file: &'a str,
    // what stands for standard input
    unnamed: &'static str,
}

impl<'a> Arguments<'a> {
    pub(crate) fn of(file: &'a str) -> Arguments<'a> {
        Arguments { file, unnamed: "" }
    }

    /// The same for a command that reads the file again: ` FILE` stands for standard input, which is
    /// used up.
    pub(crate) fn of_file(file: &'a str) -> Arguments<'a> {
        Arguments {
            file,
            unnamed: " FILE",
        }
    }
}

/// Whether a character stands for itself in a word of the shell, wherever it is.
fn is_plain(character: char) -> bool {
    character.is_ascii_alphanumeric()
        || matches!(
            character,
            '.' | '/' | '_' | '-' | '+' | ',' | ':' | '@' | '%'
        )
}

/// Writes a text in quotes.
fn write_quoted<W: fmt::Write>(f: &mut Formatter<W>, text: &str) -> fmt::Result {
    write!(f, "'")?;
    for character in text.chars() {
        if character == '\'' {
            write!(f, "'\\''")?;
        } else {
            write!(f, "{character}")?;
        }
    }
    write!(f, "'")
}

impl Display for Arguments<'_> {
    fn fmt<W: fmt::Write>(&self, f: &mut Formatter<W>) -> fmt::Result {
        if self.file == STANDARD_INPUT {
            return write!(f, "{}", self.unnamed);
        }
        if self.file.chars().any(|character| character.is_control()) {
            return write!(f, " {UNSHOWN}");
        }
        // a name that begins so would be an option
        let folder = if self.file.starts_with("-") { "./" } else { "" };
        write!(f, " {folder}")?;
        if self.file.chars().all(is_plain) {
            return write!(f, "{}", self.file);
        }
        write_quoted(f, self.file)
    }
}
