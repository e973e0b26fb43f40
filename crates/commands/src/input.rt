//! What a command reads: a file, or standard input.
ghost use Rattle.commands.specs.Inputs.{input_remaining};

use command_line::STANDARD_INPUT;
use std::fs::{Files, OpenFile};
use std::io::Read;
use std::{fs, io};

/// A file, or the reader that stands for standard input.
#[derive(Drop)]
pub enum Input<F, I> {
    File(F),
    Standard(I),
}

impl<F: Read, I: Read> Read for Input<F, I> {
    ghost remaining = { input_remaining F.remaining I.remaining };

    fn read(&mut self, buf: &mut [u8]) -> io::Result<usize> {
        match self {
            Input::File(file) => file.read(buf),
            Input::Standard(input) => input.read(buf),
        }
    }
}

/// Opens the file of this name, or takes standard input, where it is still there.
pub fn open_input<R: Files, I>(
    rt: &R,
    name: &str,
    standard: &mut Option<I>,
) -> io::Result<Input<R::File, I>> {
    if name == STANDARD_INPUT {
        if let Some(input) = standard.take() {
            return Ok(Input::Standard(input));
        }
    }
    Ok(Input::File(fs::open(rt, name)?))
}

/// How many bytes an input has, where that is known: of a regular file.
pub(crate) fn size_of<F: OpenFile, I>(input: &Input<F, I>) -> Option<u64> {
    match input {
        Input::File(file) => match file.metadata() {
            Ok(there) if there.is_file() => Some(there.len()),
            _ => None,
        },
        Input::Standard(_) => None,
    }
}

/// What a file is called in a note.
pub(crate) fn shown_name(name: &str) -> &str {
    if name == STANDARD_INPUT {
        "standard input"
    } else {
        name
    }
}
