//! Writing a file in a part beside its place.
ghost use Rattle.std.specs.Io.KnownBytes.{Keeps};

use crate::destination::Destination;
use crate::locks::{Locks, NoLocks};
use crate::not_made::NotMade;
use crate::part::{NoPart, Waiting, make_part};
use std::fs::{Files, OpenFile, OpenOptions};
use std::io::Write;
use std::{fs, io};

/// Tells whether the file that is to be replaced could be written: one that is protected isn't to
/// be replaced either.
fn check_writable<R: Files>(rt: &R, place: &str) -> io::Result<()> {
    OpenOptions::new().write(true).open(rt, place)?;
    Ok(())
}

/// A file that is being written. Until `end` its bytes are in a part beside its place, and what
/// stands there is as it was; let go before, it takes the part away. What has no part is written
/// directly.
pub struct WholeFile<'a, R: Files> {
    rt: &'a R,
    file: R::File,
    /// The part; none where the file has none, or is in its place.
    waiting: Option<Waiting>,
}

impl<'a, R: Files> WholeFile<'a, R> {
    /// Begins a file. A part that an earlier run has left is replaced, and the new file has the
    /// permissions of the old one. It is an error where the part or, without one, the file can't be
    /// made; where the part's path leads to anything but a regular file; and where the old file may
    /// not be written. A part that another run is writing is replaced too, and then that run can't
    /// end its file.
    pub fn create(rt: &'a R, destination: Destination) -> io::Result<WholeFile<'a, R>> {
        match WholeFile::create_locked(rt, destination, &NoLocks) {
            Ok(file) => Ok(file),
            Err(why) => Err(io::Error::from(why)),
        }
    }

    /// Begins a file as `create` does, and locks its part until it is let go. Where another run has
    /// the part locked, this one is refused, and the part stays.
    pub fn create_locked<L: Locks<R::File>>(
        rt: &'a R,
        destination: Destination,
        locks: &L,
    ) -> Result<WholeFile<'a, R>, NotMade> {
        let Destination { place, part, mode } = destination;
        let Some(part) = part else {
            return match fs::create(rt, place.as_str()) {
                Ok(file) => Ok(WholeFile {
                    rt,
                    file,
                    waiting: None,
                }),
                Err(error) => Err(NotMade::File(error)),
            };
        };
        if mode.is_some() {
            if let Err(error) = check_writable(rt, place.as_str()) {
                return Err(NotMade::File(error));
            }
        }
        match make_part(rt, part.as_str(), mode, locks) {
            Ok(file) => Ok(WholeFile {
                rt,
                file,
                waiting: Some(Waiting { part, place }),
            }),
            Err(NoPart::InUse) => Err(NotMade::InUse(part)),
            Err(NoPart::System(error)) => Err(NotMade::Part(part, error)),
        }
    }

    /// Whether its bytes are still in a part: let go, it is as if it had never been begun.
    pub fn is_apart(&self) -> bool {
        self.waiting.is_some()
    }

    /// Puts the file, with what was written, into its place, flushed and synced to the disk;
    /// without a part it is flushed alone. An error leaves what stood there as it was. What is
    /// written behind it goes to the file in its place.
    pub fn end(&mut self) -> io::Result<()>
        ensures { Keeps (R.File.contents self.old.file) (R.File.contents self.new.file) }
    {
        self.file.flush()?;
        let Some(waiting) = &self.waiting else {
            return Ok(());
        };
        self.file.sync_all()?;
        waiting.put(self.rt, &self.file)?;
        self.waiting = None;
        Ok(())
    }
}

impl<R: Files> Write for WholeFile<'_, R> {
    ghost contents = { λ w. R.File.contents w.file };

    fn write(&mut self, buf: &[u8]) -> io::Result<usize> {
        self.file.write(buf)
    }

    fn flush(&mut self) -> io::Result<()> {
        self.file.flush()
    }
}

impl<R: Files> Drop for WholeFile<'_, R> {
    fn drop(self) {
        if let Some(waiting) = &self.waiting {
            waiting.remove(self.rt, &self.file);
        }
        let WholeFile {
            rt: _,
            file: _,
            waiting: _,
        } = self;
    }
}
