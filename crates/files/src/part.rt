//! The part in which a file is written until it takes its place.

use crate::locks::{Lock, Locks};
use std::fs::{Files, OpenFile, OpenOptions, Permissions};
use std::io;
use std::io::ErrorKind;
use std::os::unix::fs::{MetadataExt, OpenOptionsExt, PermissionsExt};

/// Why a part isn't made.
#[derive(Clone, Copy)]
pub(crate) enum NoPart {
    /// Another run has it locked.
    InUse,
    System(io::Error),
}

/// Whether the file at a path is the one that is open.
fn is_at<R: Files>(rt: &R, file: &R::File, path: &str) -> bool {
    match (file.metadata(), rt.symlink_metadata(path)) {
        (Ok(open), Ok(there)) => open.dev() == there.dev() && open.ino() == there.ino(),
        _ => false,
    }
}

/// A part that is to take the place of a file.
#[derive(Drop)]
pub(crate) struct Waiting {
    pub(crate) part: String,
    pub(crate) place: String,
}

impl Waiting {
    /// Puts the part, which is the open file, into its place. The file at the part's path is
    /// another one where there are no locks, and another run, at work for the same place, has put
    /// its own part there.
    pub(crate) fn put<R: Files>(&self, rt: &R, file: &R::File) -> io::Result<()> {
        if !is_at(rt, file, self.part.as_str()) {
            return Err(io::Error::from(ErrorKind::ResourceBusy));
        }
        rt.rename(self.part.as_str(), self.place.as_str())
    }

    /// Takes the part away, if it is the open file.
    pub(crate) fn remove<R: Files>(&self, rt: &R, file: &R::File) {
        if is_at(rt, file, self.part.as_str()) {
            let _ = rt.remove_file(self.part.as_str());
        }
    }
}

/// Whether a regular file is at this path, and no link.
fn is_file<R: Files>(rt: &R, path: &str) -> bool {
    match rt.symlink_metadata(path) {
        Ok(there) => there.is_file(),
        Err(_) => false,
    }
}

/// Takes away the part that is open, which was left, if it is still there. It is locked meanwhile, so
/// that no other run does the same and puts its own part there.
fn remove_left<R: Files, L: Locks<R::File>>(
    rt: &R,
    part: &str,
    left: R::File,
    locks: &L,
) -> Result<(), NoPart> {
    if locks.lock(&left) == Lock::Theirs {
        return Err(NoPart::InUse);
    }
    if is_at(rt, &left, part) {
        let _ = rt.remove_file(part);
    }
    Ok(())
}

/// Takes away what a run that was killed has left. Only a regular file can be that; anything else
/// stays, and then the part can't be made. It is opened for writing, since some file systems lock
/// nothing else; one that can't be opened so is taken for left.
fn remove_stale<R: Files, L: Locks<R::File>>(rt: &R, part: &str, locks: &L) -> Result<(), NoPart> {
    if !is_file(rt, part) {
        return Ok(());
    }
    match OpenOptions::new().write(true).open(rt, part) {
        Ok(left) => remove_left(rt, part, left, locks),
        Err(error) if error.kind() == ErrorKind::NotFound => Ok(()),
        Err(_) => {
            let _ = rt.remove_file(part);
            Ok(())
        }
    }
}

/// Makes the part, as a new file. With a mode, nobody may do more with it than with the old file,
/// at no time; where the file system has no modes, that the new file doesn't keep the old one's is
/// no error.
fn new_part<R: Files>(rt: &R, part: &str, mode: Option<u32>) -> io::Result<R::File> {
    let mut options = OpenOptions::new();
    options.write(true).create_new(true);
    if let Some(mode) = mode {
        options.mode(mode);
    }
    let file = options.open(rt, part)?;
    if let Some(mode) = mode {
        let _ = file.set_permissions(Permissions::from_mode(mode));
    }
    Ok(file)
}

/// Makes the part, locked, in place of one that a killed run left. Of two runs that begin at once
/// one is refused at least, wherever they meet.
pub(crate) fn make_part<R: Files, L: Locks<R::File>>(
    rt: &R,
    part: &str,
    mode: Option<u32>,
    locks: &L,
) -> Result<R::File, NoPart> {
    remove_stale(rt, part, locks)?;
    let file = match new_part(rt, part, mode) {
        Ok(file) => file,
        Err(error) if error.kind() == ErrorKind::AlreadyExists && is_file(rt, part) => {
            return Err(NoPart::InUse);
        }
        Err(error) => return Err(NoPart::System(error)),
    };
    match locks.lock(&file) {
        Lock::Theirs => Err(NoPart::InUse),
        Lock::Ours | Lock::Unknown => Ok(file),
    }
}
