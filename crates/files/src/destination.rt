//! Where a file's bytes go until it is whole.

use std::alloc::Global;
use std::fs::Files;
use std::io;
use std::io::ErrorKind;
use std::os::unix::fs::MetadataExt;
use std::path::PathBuf;

/// How many symbolic links are followed, each leading to the next; Linux follows as many.
const MOST_LINKS: u32 = 40;

/// The bits of a mode that say who may read, write and run a file.
const PERMISSIONS: u32 = 0o777;

/// Where a path leads, and the part in which the file there is written until it is whole.
#[derive(Drop)]
pub struct Destination {
    /// The path, with the symbolic links at its end followed where there is a part.
    pub(crate) place: String,
    pub(crate) part: Option<String>,
    /// Who may read, write and run the regular file that stands there.
    pub(crate) mode: Option<u32>,
}

/// The path behind the symbolic links at the end of another one, whether anything is there or not.
fn followed<R: Files>(rt: &R, alloc: Global, path: &str) -> io::Result<String> {
    let mut followed = PathBuf::from_str(alloc, path)?;
    for _ in 0..MOST_LINKS {
        match rt.read_link(alloc, followed.as_path().as_str()) {
            Ok(link) => {
                followed.pop();
                followed.push(link)?;
            }
            Err(error) if error.kind() == ErrorKind::OutOfMemory => return Err(error),
            Err(_) => return Ok(followed.into_string()),
        }
    }
    Err(io::Error::from(ErrorKind::FilesystemLoop))
}

impl Destination {
    /// Looks where a path leads, and writes nothing. A regular file has a part, which is named as
    /// it is, with `.part` behind; so has one that isn't there yet. Anything else, as a pipe, a
    /// terminal or a device, has none: it can't be replaced. An error comes where the system
    /// answers one, or memory is refused.
    pub fn of<R: Files>(rt: &R, alloc: Global, path: &str) -> io::Result<Destination> {
        match rt.metadata(path) {
            Ok(there) if there.is_file() => {
                Destination::beside(rt, alloc, path, Some(there.mode() & PERMISSIONS))
            }
            Ok(_) => Ok(Destination {
                place: String::from_str(alloc, path)?,
                part: None,
                mode: None,
            }),
            Err(error) if error.kind() == ErrorKind::NotFound && !path.is_empty() => {
                Destination::beside(rt, alloc, path, None)
            }
            Err(error) => Err(error),
        }
    }

    fn beside<R: Files>(
        rt: &R,
        alloc: Global,
        path: &str,
        mode: Option<u32>,
    ) -> io::Result<Destination> {
        let place = followed(rt, alloc, path)?;
        let part = format!(in alloc; "{place}.part")?;
        Ok(Destination {
            place,
            part: Some(part),
            mode,
        })
    }

    /// The path of the part, where there is one.
    pub fn part(&self) -> Option<&str> {
        match &self.part {
            Some(part) => Some(part.as_str()),
            None => None,
        }
    }
}
