//! Command lines without a command, for which `solve` is put in: every other solver is called so.

use command_line::{STANDARD_INPUT, is_command};
use std::alloc::{AllocError, Global};
use std::fs;
use std::fs::Files;

/// Whether an option asks for the help or the version of the program as a whole.
fn is_of_program(word: &str) -> bool {
    matches!(word, "-h" | "--help" | "-V" | "--version")
}

/// Whether a word may be a file's name. A misspelt command is none, so that the parser can say which
/// one it is like.
fn names_file<R: Files>(rt: &R, word: &str) -> bool {
    word == STANDARD_INPUT
        || word.contains('/')
        || word.contains('.')
        || fs::metadata(rt, word).is_ok()
}

/// Whether these words, of which the program's name is the first one, have no command: they begin with
/// a file, or with an option and none of them is a command.
fn lacks_command<R: Files>(rt: &R, words: &[&str]) -> bool {
    let Some(first) = words.get(1).copied() else {
        return false;
    };
    if is_command(first) || is_of_program(first) {
        false
    } else if first.starts_with('-') && first != STANDARD_INPUT {
        !words.iter().any(|word| is_command(word))
    } else {
        names_file(rt, first)
    }
}

/// The words of a command line, with `solve` in front where they have no command.
pub(crate) fn with_command<'a, R: Files>(
    rt: &R,
    alloc: Global,
    words: &[&'a str],
) -> Result<Vec<&'a str>, AllocError> {
    let lacks = lacks_command(rt, words);
    let mut whole = Vec::new(alloc);
    for (place, word) in words.iter().enumerate() {
        whole.push(*word)?;
        if place == 0 && lacks {
            whole.push("solve")?;
        }
    }
    Ok(whole)
}
