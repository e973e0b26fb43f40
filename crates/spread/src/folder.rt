//! Where things lie in the folder of a run. They are read and written whole, and told apart by their
//! sums.
ghost use Rattle.std.specs.Prelude.{◌≡◌, ◌++◌, IfOk, string_bytes, codes};
ghost use Rattle.spread.specs.Sums.{sum_of};

use crate::slice::Slice;
use files::{Destination, WholeFile};
use sha2::{Digest, Sha256};
use std::alloc::{AllocError, Global};
use std::fs::Files;
use std::io::{Read, Write};
use std::{fs, io};

/// The folder of a run.
#[derive(Clone, Copy)]
pub struct Folder<'a> {
    pub path: &'a str,
}

impl<'a> Folder<'a> {
    /// What the run is.
    pub fn run(self, alloc: Global) -> Result<String, AllocError>
        ensures { IfOk result (λ path. string_bytes path ≡ self.entry.path.now ++ codes "/run") }
    {
        let path = self.path;
        format!(in alloc; "{path}/run")
    }

    /// Its formula.
    pub fn formula(self, alloc: Global) -> Result<String, AllocError>
        ensures { IfOk result (λ path. string_bytes path ≡ self.entry.path.now ++ codes "/formula.cnf") }
    {
        let path = self.path;
        format!(in alloc; "{path}/formula.cnf")
    }

    /// The folder of what is said of cubes.
    pub fn packs(self, alloc: Global) -> Result<String, AllocError>
        ensures { IfOk result (λ path. string_bytes path ≡ self.entry.path.now ++ codes "/packs") }
    {
        let path = self.path;
        format!(in alloc; "{path}/packs")
    }

    /// The folder of the models that were found.
    pub fn models(self, alloc: Global) -> Result<String, AllocError>
        ensures { IfOk result (λ path. string_bytes path ≡ self.entry.path.now ++ codes "/models") }
    {
        let path = self.path;
        format!(in alloc; "{path}/models")
    }

    /// The note of a model of a name.
    pub fn model(self, alloc: Global, name: &str) -> Result<String, AllocError>
        ensures { IfOk result (λ path. string_bytes path ≡ self.entry.path.now ++ codes "/models/" ++ name.now) }
    {
        let path = self.path;
        format!(in alloc; "{path}/models/{name}")
    }

    /// The cubes that were open when a round began.
    pub fn round(self, alloc: Global, number: u32) -> Result<String, AllocError> {
        let path = self.path;
        format!(in alloc; "{path}/rounds/{number:04}")
    }

    /// The folder of the parts that are at work.
    pub fn parts(self, alloc: Global) -> Result<String, AllocError>
        ensures { IfOk result (λ path. string_bytes path ≡ self.entry.path.now ++ codes "/parts") }
    {
        let path = self.path;
        format!(in alloc; "{path}/parts")
    }

    /// The note of a part of a round that is at work.
    pub fn part(self, alloc: Global, round: u32, slice: Slice) -> Result<String, AllocError> {
        let path = self.path;
        let (number, parts) = (slice.number(), slice.parts());
        format!(in alloc; "{path}/parts/{round:04}-{number}-{parts}")
    }

    /// The note of a part by its name.
    pub fn note(self, alloc: Global, name: &str) -> Result<String, AllocError>
        ensures { IfOk result (λ path. string_bytes path ≡ self.entry.path.now ++ codes "/parts/" ++ name.now) }
    {
        let path = self.path;
        format!(in alloc; "{path}/parts/{name}")
    }

    /// The pack of a name.
    pub fn pack(self, alloc: Global, name: &str) -> Result<String, AllocError>
        ensures { IfOk result (λ path. string_bytes path ≡ self.entry.path.now ++ codes "/packs/" ++ name.now) }
    {
        let path = self.path;
        format!(in alloc; "{path}/packs/{name}")
    }
}

/// The bytes of a file.
pub(crate) fn read_file<R: Files>(rt: &R, alloc: Global, path: &str) -> io::Result<Vec<u8>> {
    let mut file = fs::open(rt, path)?;
    let mut bytes = Vec::new(alloc);
    file.read_to_end(&mut bytes)?;
    Ok(bytes)
}

/// Writes a file beside its place, syncs it, and puts it there once it is whole.
pub(crate) fn write_file<R: Files>(
    rt: &R,
    alloc: Global,
    path: &str,
    bytes: &[u8],
) -> io::Result<()> {
    let destination = Destination::of(rt, alloc, path)?;
    let mut file = WholeFile::create(rt, destination)?;
    file.write_all(bytes)?;
    file.end()
}

/// The SHA-256 of bytes, in hexadecimal digits.
pub(crate) fn sum_of(alloc: Global, bytes: &[u8]) -> Result<String, AllocError>
    ensures { IfOk result (λ text. string_bytes text ≡ sum_of bytes.now) }
{
    let mut hasher = Sha256::new();
    hasher.update(bytes);
    hex::encode(alloc, hasher.finalize())
}
