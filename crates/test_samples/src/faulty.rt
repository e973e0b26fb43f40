//! Readers that give a few bytes a call, writers that take one, and failures where a test wants
//! them.
use std::alloc::Global;
use std::io;
use std::io::{ErrorKind, Read, Write};

/// How a reader behaves behind its last byte.
#[derive(Clone, Copy)]
enum End {
    Fails,
    Ends,
}

/// A reader that gives so many bytes a call.
#[derive(Drop)]
pub struct Trickle<'a> {
    left: &'a [u8],
    count: usize,
    end: End,
}

impl<'a> Trickle<'a> {
    /// Gives a byte a call and ends.
    pub fn whole(bytes: &'a [u8]) -> Trickle<'a> {
        Trickle::pieces(bytes, 1)
    }

    /// Gives all bytes in one call and ends.
    pub fn at_once(bytes: &'a [u8]) -> Trickle<'a> {
        Trickle::pieces(bytes, bytes.len())
    }

    /// Gives pieces of so many bytes, the last one of those that are left, and ends.
    pub fn pieces(bytes: &'a [u8], count: usize) -> Trickle<'a> {
        Trickle {
            left: bytes,
            count,
            end: End::Ends,
        }
    }

    /// Gives a byte a call and fails behind the last.
    pub fn broken(bytes: &'a [u8]) -> Trickle<'a> {
        Trickle {
            left: bytes,
            count: 1,
            end: End::Fails,
        }
    }
}

impl Read for Trickle<'_> {
    fn read(&mut self, buf: &mut [u8]) -> io::Result<usize> {
        let count = self.count.min(self.left.len()).min(buf.len());
        if count == 0 {
            return match self.end {
                End::Ends => Ok(0),
                End::Fails => Err(io::Error::from(ErrorKind::Interrupted)),
            };
        }
        buf[..count].copy_from_slice(&self.left[..count]);
        self.left = &self.left[count..];
        Ok(count)
    }
}

/// How a writer behaves once it has no room.
#[derive(Clone, Copy, PartialEq, Eq)]
pub enum Full {
    Fails,
    TakesNothing,
}

/// What a writer has room for, and what it refuses.
#[derive(Clone, Copy)]
pub struct Limits {
    pub room: usize,
    pub full: Full,
    pub flushes: bool,
}

impl Limits {
    /// Fails behind so many bytes.
    pub fn of(room: usize) -> Limits {
        Limits {
            room,
            full: Full::Fails,
            flushes: true,
        }
    }
}

/// Has room for all that is written in the tests that take it.
pub const ROOMY: Limits = Limits {
    room: 1000,
    full: Full::Fails,
    flushes: true,
};

/// Has room for all that is written, and can't be flushed.
pub const UNFLUSHED: Limits = Limits {
    room: 1000,
    full: Full::Fails,
    flushes: false,
};

/// A writer that takes a byte a call, as many as it has room for.
pub struct Limited {
    pub taken: Vec<u8>,
    limits: Limits,
    /// How many calls it has refused.
    pub refusals: usize,
}

// written out, so that proofs of its owners stay short (docs/PROVING.md)
impl Drop for Limited {
    fn drop(self) {
        let Limited {
            taken: _,
            limits: _,
            refusals: _,
        } = self;
    }
}

impl Limited {
    /// A writer that has taken nothing.
    pub fn new(alloc: Global, limits: Limits) -> Limited {
        Limited {
            taken: Vec::new(alloc),
            limits,
            refusals: 0,
        }
    }
}

impl Write for Limited {
    fn write(&mut self, buf: &[u8]) -> io::Result<usize> {
        if self.taken.len() >= self.limits.room {
            self.refusals = self.refusals.saturating_add(1);
            return match self.limits.full {
                Full::Fails => Err(io::Error::from(ErrorKind::Other)),
                Full::TakesNothing => Ok(0),
            };
        }
        match buf.first() {
            None => Ok(0),
            Some(byte) => {
                self.taken.push(*byte)?;
                Ok(1)
            }
        }
    }

    fn flush(&mut self) -> io::Result<()> {
        if self.limits.flushes {
            Ok(())
        } else {
            self.refusals = self.refusals.saturating_add(1);
            Err(io::Error::from(ErrorKind::Other))
        }
    }
}
