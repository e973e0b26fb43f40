//! Whether two names are of one file.

use crate::input::Input;
use std::fs::{Files, Metadata, OpenFile};
use std::os::unix::fs::MetadataExt;
use std::{fs, io};

/// By these names Linux has the files that standard input comes from and standard output goes to.
const STANDARD_INPUT_FILE: &str = "/dev/stdin";

const STANDARD_OUTPUT_FILE: &str = "/dev/stdout";

/// What goes there is lost.
const NULL_DEVICE: &str = "/dev/null";

/// Whether a path leads to the file that is open, however it is spelled, by the file's device and
/// number on it.
fn is_same<R: Files>(rt: &R, open: io::Result<Metadata>, path: &str) -> bool {
    match (open, fs::metadata(rt, path)) {
        (Ok(open), Ok(there)) => open.dev() == there.dev() && open.ino() == there.ino(),
        _ => false,
    }
}

/// Whether what is open is a regular file.
fn is_regular(open: &io::Result<Metadata>) -> bool {
    match open {
        Ok(open) => open.is_file(),
        Err(_) => false,
    }
}

/// Whether a path leads to the file that is read. Only a regular file counts: a terminal, say, loses
/// nothing by being opened twice.
pub(crate) fn leads_to_input<R: Files, I>(rt: &R, input: &Input<R::File, I>, path: &str) -> bool {
    let open = match input {
        Input::File(file) => file.metadata(),
        Input::Standard(_) => fs::metadata(rt, STANDARD_INPUT_FILE),
    };
    is_regular(&open) && is_same(rt, open, path)
}

/// Whether a path leads to the file, pipe or device that standard output goes to, so that what is
/// written there would be mixed with it.
pub(crate) fn leads_to_output<R: Files>(rt: &R, path: &str) -> bool {
    let is_output = is_same(rt, fs::metadata(rt, STANDARD_OUTPUT_FILE), path);
    is_output && !is_same(rt, fs::metadata(rt, NULL_DEVICE), path)
}
