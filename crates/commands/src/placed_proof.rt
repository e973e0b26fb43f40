//! The file of a proof: it takes its place before the answer is given.

use crate::input::Input;
use crate::same_file::{leads_to_input, leads_to_output};
use files::{Destination, Locks, NotMade, WholeFile};
use std::alloc::Global;
use std::fs::Files;
use std::io;
use std::io::{ErrorKind, Write};

/// Why the file of a proof isn't begun.
#[derive(Drop)]
pub enum NotBegun {
    /// The proof would be written over the formula.
    Formula,
    /// The answer would be lost, which goes to the same file.
    Answer,
    /// Another run writes it, in the part of this path.
    InUse(String),
    /// The part of this path can't be made; the system's error.
    NoPart(String, io::Error),
    /// It can't be made; the system's error.
    NoFile(io::Error),
    NoMemory,
}

impl NotBegun {
    fn of(error: io::Error) -> NotBegun {
        if error.kind() == ErrorKind::OutOfMemory {
            NotBegun::NoMemory
        } else {
            NotBegun::NoFile(error)
        }
    }
}

/// Writes a proof to its file. A run flushes its proof once, behind the last byte and before the
/// first one of the answer; then the file takes its place. So an answer is given only where its
/// proof is there, and a run that fails before leaves what was there.
#[derive(Drop)]
pub struct PlacedProof<'a, R: Files> {
    file: WholeFile<'a, R>,
}

impl<R: Files> PlacedProof<'_, R> {
    /// Whether it may be let go, and another one begun in its place: it isn't in its place yet, as
    /// what goes to a pipe or a device is at once.
    pub fn is_apart(&self) -> bool {
        self.file.is_apart()
    }
}

impl<R: Files> Write for PlacedProof<'_, R> {
    ghost contents = { λ w. ⟦<WholeFile<'static, R> as Write>⟧.contents w.file };

    fn write(&mut self, buf: &[u8]) -> io::Result<usize> {
        self.file.write(buf)
    }

    fn flush(&mut self) -> io::Result<()> {
        self.file.end()
    }
}

/// Whether the proof at this path, or the part in which it is written, would be written over the
/// formula.
fn is_over<R: Files, I>(
    rt: &R,
    formula: &Input<R::File, I>,
    path: &str,
    destination: &Destination,
) -> bool {
    let is_part = match destination.part() {
        Some(part) => leads_to_input(rt, formula, part),
        None => false,
    };
    is_part || leads_to_input(rt, formula, path)
}

/// Begins the file of a proof. Its part is locked until it is let go, so that a later run for the
/// same proof is refused.
pub fn begin_proof<'a, R: Files, I, L: Locks<R::File>>(
    rt: &'a R,
    alloc: Global,
    path: &str,
    formula: &Input<R::File, I>,
    locks: &L,
) -> Result<PlacedProof<'a, R>, NotBegun> {
    let destination = match Destination::of(rt, alloc, path) {
        Ok(destination) => destination,
        Err(error) => return Err(NotBegun::of(error)),
    };
    if is_over(rt, formula, path, &destination) {
        return Err(NotBegun::Formula);
    }
    if leads_to_output(rt, path) {
        return Err(NotBegun::Answer);
    }
    match WholeFile::create_locked(rt, destination, locks) {
        Ok(file) => Ok(PlacedProof { file }),
        Err(NotMade::InUse(part)) => Err(NotBegun::InUse(part)),
        Err(NotMade::Part(_, error)) if error.kind() == ErrorKind::OutOfMemory => {
            Err(NotBegun::NoMemory)
        }
        Err(NotMade::Part(part, error)) => Err(NotBegun::NoPart(part, error)),
        Err(NotMade::File(error)) => Err(NotBegun::of(error)),
    }
}
