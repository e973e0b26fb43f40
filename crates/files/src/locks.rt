//! Locks of open files, by which a part at work is told from one that a killed run left.

use std::fs::{File, TryLockError};

/// What became of the try to lock an open file.
#[derive(Clone, Copy, Debug, PartialEq, Eq)]
pub enum Lock {
    /// It is locked until the file is closed, which the end of the run does, however it ends.
    Ours,
    /// Another run has it locked, or another opening of the file in this one.
    Theirs,
    /// There are no locks here, so nothing is known of other runs.
    Unknown,
}

/// What locks open files.
pub trait Locks<F> {
    /// Tries to lock a file, without waiting.
    fn lock(&self, file: &F) -> Lock;
}

/// The locks of the system. They hold between processes of one machine, and on most file systems
/// that several machines share.
#[derive(Clone, Copy, Drop)]
pub struct SystemLocks;

impl Locks<File> for SystemLocks {
    fn lock(&self, file: &File) -> Lock {
        match file.try_lock() {
            Ok(()) => Lock::Ours,
            Err(TryLockError::WouldBlock) => Lock::Theirs,
            Err(TryLockError::Error(_)) => Lock::Unknown,
        }
    }
}

/// No locks, for files that aren't the system's.
#[derive(Clone, Copy, Drop)]
pub struct NoLocks;

impl<F> Locks<F> for NoLocks {
    fn lock(&self, _file: &F) -> Lock {
        Lock::Unknown
    }
}
