//! Why a file isn't begun.

use std::io;
use std::io::ErrorKind;

/// Why a file isn't begun.
#[derive(Drop)]
pub enum NotMade {
    /// Another run is writing the part of this path.
    InUse(String),
    /// The part of this path can't be made; the system's error.
    Part(String, io::Error),
    /// The file itself can't be written; the system's error.
    File(io::Error),
}

impl From<NotMade> for io::Error {
    fn from(why: NotMade) -> io::Error {
        match why {
            NotMade::InUse(_) => io::Error::from(ErrorKind::ResourceBusy),
            NotMade::Part(_, error) | NotMade::File(error) => error,
        }
    }
}
