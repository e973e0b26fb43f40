//! What a command line prints, and what it is to print.
use crate::paths::Paths;
use std::alloc::Global;
use std::test::Fail;

/// What a command line printed, and its status.
pub struct Printed {
    pub status: u8,
    pub answer: Vec<u8>,
    pub faults: Vec<u8>,
}

// written out, so that proofs of its owners stay short (docs/PROVING.md)
impl Drop for Printed {
    fn drop(self) {
        let Printed {
            status: _,
            answer: _,
            faults: _,
        } = self;
    }
}

/// What a command line is to print, and its status.
#[derive(Clone, Copy)]
pub struct Wanted<'a> {
    pub status: u8,
    pub answer: &'a str,
    pub faults: &'a str,
}

/// Whether this was printed, and nothing else.
pub fn is_printed(printed: &Printed, wanted: &Wanted) -> bool {
    printed.status == wanted.status
        && printed.answer.as_slice() == wanted.answer.as_bytes()
        && printed.faults.as_slice() == wanted.faults.as_bytes()
}

/// Whether just this was printed, where a file's word stands between bars in the faults that are
/// wanted.
pub fn is_filled(
    alloc: Global,
    paths: &Paths,
    printed: &Printed,
    wanted: &Wanted,
) -> Result<bool, Fail> {
    let faults = paths.filled(alloc, wanted.faults)?;
    let filled = Wanted {
        faults: faults.as_str(),
        ..*wanted
    };
    Ok(is_printed(printed, &filled))
}

/// What is known of a text.
#[derive(Clone, Copy)]
pub enum Known<'a> {
    All(&'a str),
    Beginning(&'a str),
    /// What stands behind the first place of a piece.
    Behind(&'a str, &'a str),
}

impl Known<'_> {
    fn is_in(&self, text: &str) -> bool {
        match self {
            Known::All(all) => text == *all,
            Known::Beginning(beginning) => text.starts_with(*beginning),
            Known::Behind(piece, wanted) => match text.split_once(*piece) {
                Some((_, behind)) => behind.starts_with(*wanted),
                None => false,
            },
        }
    }

    /// Whether these bytes are such a text.
    pub fn is_of(&self, bytes: &[u8]) -> bool {
        match str::from_utf8(bytes) {
            Ok(text) => self.is_in(text),
            Err(_) => false,
        }
    }
}
