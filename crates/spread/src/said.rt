//! What is said where a command can't go on.

use std::io;
use std::io::{ErrorKind, Write};

/// Why a command ended without its work done was printed, in a line that names the file.
#[derive(Clone, Copy, Debug)]
pub struct Said;

/// Prints what is wrong with a file, and what to do. A failed write changes nothing.
pub(crate) fn say<E: Write>(faults: &mut E, path: &str, words: &str) -> Said {
    let _ = writeln!(faults, "cubesat: {path}: {words}");
    Said
}

/// Prints that memory was refused.
pub(crate) fn say_no_memory<E: Write>(faults: &mut E, path: &str) -> Said {
    say(faults, path, "not enough memory; free some and try again")
}

/// Prints what the system answered to a call for a file.
pub(crate) fn say_error<E: Write>(faults: &mut E, path: &str, error: io::Error) -> Said {
    if error.kind() == ErrorKind::OutOfMemory {
        return say_no_memory(faults, path);
    }
    let _ = writeln!(faults, "cubesat: {path}: {error}");
    Said
}
