//! The real system, but for its clock, what it tells of memory, files that are read slowly, and a
//! call that is refused.
use crate::clocks::Pace;
use std::alloc::{AllocError, Allocator};
use std::fs::{Files, Metadata, OpenFile, OpenOptions, Permissions};
use std::io;
use std::io::{ErrorKind, PipeReader, PipeWriter, Read, Seek, SeekFrom, Write};
use std::path::PathBuf;
use std::sync::Wait;
use std::thread::Threads;
use std::time::{Clock, Duration};

/// Where Linux tells of the process. `solve` reads it at the end of each stage, where its run is
/// counted.
pub const STATUS: &str = "/proc/self/status";

/// By this name Linux has the file that standard output goes to.
const OUTPUT: &str = "/dev/stdout";

/// A call that is refused.
#[derive(Clone, Copy, Debug, PartialEq, Eq)]
pub enum Call {
    /// To open a file that is there for writing.
    Open,
    Write,
    Flush,
    Sync,
    Rename,
    /// To rename a file, since another run is at work there.
    RenameAsBusy,
    /// To rename a file, for want of memory.
    RenameForMemory,
    SetPermissions,
}

fn refuse(refused: Option<Call>, call: Call) -> io::Result<()> {
    if refused == Some(call) {
        Err(io::Error::from(ErrorKind::PermissionDenied))
    } else {
        Ok(())
    }
}

/// Why a file can't be renamed, where this call is refused.
fn refusal_to_rename(refused: Option<Call>) -> Option<ErrorKind> {
    match refused? {
        Call::Rename => Some(ErrorKind::PermissionDenied),
        Call::RenameAsBusy => Some(ErrorKind::ResourceBusy),
        Call::RenameForMemory => Some(ErrorKind::OutOfMemory),
        _ => None,
    }
}

/// A file that is read slowly, or of which a call is refused.
#[derive(Drop)]
pub struct FakeFile<'a, F> {
    inner: F,
    pace: Option<&'a Pace<'a>>,
    refused: Option<Call>,
}

impl<'a, 'b> FakeFile<'a, &'b [u8]> {
    /// A text that stands for the standard input.
    pub fn of_text(text: &'b [u8], pace: Option<&'a Pace<'a>>) -> FakeFile<'a, &'b [u8]> {
        FakeFile {
            inner: text,
            pace,
            refused: None,
        }
    }
}

impl<F: Read> Read for FakeFile<'_, F> {
    fn read(&mut self, buf: &mut [u8]) -> io::Result<usize> {
        if let Some(pace) = self.pace {
            pace.hold();
        }
        self.inner.read(buf)
    }
}

impl<F: Write> Write for FakeFile<'_, F> {
    fn write(&mut self, buf: &[u8]) -> io::Result<usize> {
        refuse(self.refused, Call::Write)?;
        self.inner.write(buf)
    }

    fn flush(&mut self) -> io::Result<()> {
        refuse(self.refused, Call::Flush)?;
        self.inner.flush()
    }
}

impl<F: Seek> Seek for FakeFile<'_, F> {
    fn seek(&mut self, to: SeekFrom) -> io::Result<u64> {
        self.inner.seek(to)
    }
}

impl<F: OpenFile> OpenFile for FakeFile<'_, F> {
    fn metadata(&self) -> io::Result<Metadata> {
        self.inner.metadata()
    }

    fn set_len(&self, size: u64) -> io::Result<()> {
        self.inner.set_len(size)
    }

    fn sync_all(&self) -> io::Result<()> {
        refuse(self.refused, Call::Sync)?;
        self.inner.sync_all()
    }

    fn sync_data(&self) -> io::Result<()> {
        self.inner.sync_data()
    }

    fn set_permissions(&self, perm: Permissions) -> io::Result<()> {
        refuse(self.refused, Call::SetPermissions)?;
        self.inner.set_permissions(perm)
    }
}

/// The system.
pub struct Fake<'a, R, C> {
    rt: &'a R,
    clock: &'a C,
    /// The file that is read slowly, and what holds its reads.
    slow: Option<(&'a str, &'a Pace<'a>)>,
    /// The file that is opened in place of the one in which Linux tells of the process, where there
    /// is one.
    status: Option<&'a str>,
    /// The file that standard output goes to, where it isn't the test's own.
    output: Option<&'a str>,
    refused: Option<Call>,
}

// written out, so that proofs of its owners stay short (docs/PROVING.md)
impl<R, C> Drop for Fake<'_, R, C> {
    fn drop(self) {
        let Fake {
            rt: _,
            clock: _,
            slow: _,
            status: _,
            output: _,
            refused: _,
        } = self;
    }
}

// a folder that is listed keeps a copy of the system
impl<R, C> Clone for Fake<'_, R, C> {
    fn clone(&self) -> Result<Self, AllocError> {
        Ok(Fake {
            rt: self.rt,
            clock: self.clock,
            slow: self.slow,
            status: self.status,
            output: self.output,
            refused: self.refused,
        })
    }
}

impl<'a, R, C> Fake<'a, R, C> {
    /// The system by this clock.
    pub fn by(rt: &'a R, clock: &'a C) -> Fake<'a, R, C> {
        Fake {
            rt,
            clock,
            slow: None,
            status: None,
            output: None,
            refused: None,
        }
    }

    /// The system by this clock, where this call is refused.
    pub fn refusing(rt: &'a R, clock: &'a C, call: Call) -> Fake<'a, R, C> {
        Fake {
            rt,
            clock,
            slow: None,
            status: None,
            output: None,
            refused: Some(call),
        }
    }

    /// The system by this clock, where the file of this path tells of the process.
    pub fn telling(rt: &'a R, clock: &'a C, path: &'a str) -> Fake<'a, R, C> {
        Fake {
            rt,
            clock,
            slow: None,
            status: Some(path),
            output: None,
            refused: None,
        }
    }

    /// The system by this clock, where standard output goes to the file of this path.
    pub fn printing_to(rt: &'a R, clock: &'a C, path: &'a str) -> Fake<'a, R, C> {
        Fake {
            rt,
            clock,
            slow: None,
            status: None,
            output: Some(path),
            refused: None,
        }
    }

    /// What holds the reads of the file of this path.
    fn pace_of(&self, path: &str) -> Option<&'a Pace<'a>> {
        match self.slow {
            Some((slow, pace)) if slow == path => Some(pace),
            _ => None,
        }
    }
}

impl<'a, R> Fake<'a, R, Pace<'a>> {
    /// The system by the clock of a pace that holds the reads of the file of this path.
    pub fn slowed(rt: &'a R, pace: &'a Pace<'a>, path: &'a str) -> Fake<'a, R, Pace<'a>> {
        Fake {
            rt,
            clock: pace,
            slow: Some((path, pace)),
            status: None,
            output: None,
            refused: None,
        }
    }
}

impl<R: Alloc, C> Alloc for Fake<'_, R, C> {
    type A = R::A;

    fn alloc(&self) -> R::A {
        self.rt.alloc()
    }
}

impl<R: Wait, C> Wait for Fake<'_, R, C> {}

impl<R: Threads, C> Threads for Fake<'_, R, C> {}

impl<R, C: Clock> Clock for Fake<'_, R, C> {
    fn monotonic(&self) -> io::Result<Duration> {
        self.clock.monotonic()
    }

    fn since_1970(&self) -> io::Result<Duration> {
        self.clock.since_1970()
    }

    fn sleep(&self, duration: Duration) {
        self.clock.sleep(duration)
    }
}

impl<'a, R: Files, C> Files for Fake<'a, R, C> {
    type File = FakeFile<'a, R::File>;

    type Dir = R::Dir;

    fn open_file(&self, how: &OpenOptions, path: &str) -> io::Result<FakeFile<'a, R::File>> {
        if how.asks_write() && !how.asks_create_new() {
            refuse(self.refused, Call::Open)?;
        }
        let there = match self.status {
            Some(status) if path == STATUS => status,
            _ => path,
        };
        let inner = self.rt.open_file(how, there)?;
        Ok(FakeFile {
            inner,
            pace: self.pace_of(path),
            refused: self.refused,
        })
    }

    fn open_dir(&self, path: &str) -> io::Result<R::Dir> {
        self.rt.open_dir(path)
    }

    fn metadata(&self, path: &str) -> io::Result<Metadata> {
        let there = match self.output {
            Some(output) if path == OUTPUT => output,
            _ => path,
        };
        self.rt.metadata(there)
    }

    fn symlink_metadata(&self, path: &str) -> io::Result<Metadata> {
        self.rt.symlink_metadata(path)
    }

    fn copy(&self, from: &str, to: &str) -> io::Result<u64> {
        self.rt.copy(from, to)
    }

    fn rename(&self, from: &str, to: &str) -> io::Result<()> {
        match refusal_to_rename(self.refused) {
            Some(kind) => Err(io::Error::from(kind)),
            None => self.rt.rename(from, to),
        }
    }

    fn remove_file(&self, path: &str) -> io::Result<()> {
        self.rt.remove_file(path)
    }

    fn create_dir(&self, path: &str) -> io::Result<()> {
        self.rt.create_dir(path)
    }

    fn remove_dir(&self, path: &str) -> io::Result<()> {
        self.rt.remove_dir(path)
    }

    fn read_link<B: Allocator>(&self, alloc: B, path: &str) -> io::Result<PathBuf<B>> {
        self.rt.read_link(alloc, path)
    }

    fn remove_dir_all<B: Allocator>(&self, alloc: B, path: &str) -> io::Result<()> {
        self.rt.remove_dir_all(alloc, path)
    }

    fn canonicalize<B: Allocator>(&self, alloc: B, path: &str) -> io::Result<PathBuf<B>> {
        self.rt.canonicalize(alloc, path)
    }

    fn hard_link(&self, original: &str, link: &str) -> io::Result<()> {
        self.rt.hard_link(original, link)
    }

    fn symlink(&self, original: &str, link: &str) -> io::Result<()> {
        self.rt.symlink(original, link)
    }

    fn set_permissions(&self, path: &str, perm: Permissions) -> io::Result<()> {
        self.rt.set_permissions(path, perm)
    }

    fn chown(&self, path: &str, uid: Option<u32>, gid: Option<u32>) -> io::Result<()> {
        self.rt.chown(path, uid, gid)
    }

    fn lchown(&self, path: &str, uid: Option<u32>, gid: Option<u32>) -> io::Result<()> {
        self.rt.lchown(path, uid, gid)
    }

    fn create_dir_with_mode(&self, path: &str, mode: u32) -> io::Result<()> {
        self.rt.create_dir_with_mode(path, mode)
    }

    fn pipe(&self) -> io::Result<(PipeReader, PipeWriter)> {
        self.rt.pipe()
    }
}
