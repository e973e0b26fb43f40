//! Why the system refused something, in words.

use std::fmt::{Display, Formatter};
use std::io::ErrorKind;
use std::{fmt, io};

/// Why the system refused something.
#[derive(Clone, Copy)]
pub(crate) enum Cause {
    /// A standard file is closed, or open for the other use alone.
    Closed,
    Worded(&'static str),
    /// There are no better words than the system's.
    System(io::Error),
}

/// The system's number for a file that is closed, or open for the other use alone.
const BAD_DESCRIPTOR: i32 = 9;

/// The words for what goes wrong with files of any use.
fn words_of_any(kind: ErrorKind) -> Option<&'static str> {
    match kind {
        ErrorKind::NotADirectory => Some("a part of its path is no folder"),
        ErrorKind::InvalidFilename => Some("its name is too long"),
        ErrorKind::FilesystemLoop => Some("its links lead round in a circle"),
        ErrorKind::StorageFull => Some("no room on the device"),
        ErrorKind::QuotaExceeded => Some("your share of the device is used up"),
        ErrorKind::FileTooLarge => Some("it would be longer than a file may be"),
        ErrorKind::ReadOnlyFilesystem => Some("the device can only be read"),
        ErrorKind::BrokenPipe => Some("the program that reads it has ended"),
        _ => None,
    }
}

/// The words for a file that is opened or read.
fn words_of_reading(kind: ErrorKind) -> Option<&'static str> {
    match kind {
        ErrorKind::NotFound => Some("no such file"),
        ErrorKind::PermissionDenied => Some("no permission to read it"),
        ErrorKind::IsADirectory => Some("is a folder"),
        _ => words_of_any(kind),
    }
}

/// Only the part in which a proof is written is made anew, and a file there would be replaced.
const TAKEN_PART: &str =
    "the name of its part, with .part behind, is taken by something other than a file";

/// The words for a file that is created or written.
fn words_of_writing(kind: ErrorKind) -> Option<&'static str> {
    match kind {
        ErrorKind::NotFound => Some("its folder doesn't exist"),
        ErrorKind::PermissionDenied => Some("no permission to write it"),
        ErrorKind::IsADirectory => Some("it is a folder"),
        ErrorKind::AlreadyExists => Some(TAKEN_PART),
        _ => words_of_any(kind),
    }
}

impl Cause {
    /// These words, or else the system's.
    fn of(words: Option<&'static str>, error: io::Error) -> Cause {
        match words {
            Some(words) => Cause::Worded(words),
            None if error.raw_os_error() == Some(BAD_DESCRIPTOR) => Cause::Closed,
            None => Cause::System(error),
        }
    }

    pub(crate) fn is_closed(&self) -> bool {
        matches!(self, Cause::Closed)
    }

    /// Why a file can't be opened or read.
    pub(crate) fn of_reading(error: io::Error) -> Cause {
        Cause::of(words_of_reading(error.kind()), error)
    }

    /// Why a file can't be created or written. Where there was no error, a write took nothing.
    pub(crate) fn of_writing(error: Option<io::Error>) -> Cause {
        match error {
            Some(error) => Cause::of(words_of_writing(error.kind()), error),
            None => Cause::Worded("the system took none of it"),
        }
    }
}

impl Display for Cause {
    fn fmt<W: fmt::Write>(&self, f: &mut Formatter<W>) -> fmt::Result {
        match self {
            Cause::Closed => write!(f, "it is closed"),
            Cause::Worded(words) => write!(f, "{words}"),
            Cause::System(error) => write!(f, "{error}"),
        }
    }
}
