//! The format of a pack's file: the first line of its run's packs, and facts, of which each stands
//! behind its length. Its name is made of its bytes, so that no other one overwrites it, and so that
//! one that was cut or changed is known. It is written whole, read whole, or gone through once.
ghost use Rattle.std.specs.Prelude.{◌≡◌, ◌++◌, ℕ, List, All, IfOk, IfSome, MatchOption, string_bytes, codes, ◌≤◌, ◌<◌, ◌+◌, length, true, OnOk, IsTrue};
ghost use Rattle.std.specs.Int.{w64, to_le_bytes};
ghost use Rattle.sha2.specs.Hashers.{Holds256};
ghost use Rattle.packs.specs.Packs.{IsPackOf};
ghost use Rattle.gathering.specs.Facts.{IsTrueFact};
ghost use Rattle.spread.specs.PackFiles.{head, pack_name, IsWholePack, IsPackFile, IsTruePackFile};
ghost use Rattle.spread.specs.Passages.{IsBetween, IsWithin, IsFilled, IsMet, IsLength, IsNext};
ghost use Rattle.spread.specs.Sums.{sum_of};

use crate::folder::{Folder, read_file, sum_of, write_file};
use crate::run_file::RunFile;
use crate::said::{Said, say, say_error, say_no_memory};
use cnf::Formula;
use packs::{Fact, write_fact};
use sha2::{Digest, Sha256};
use std::alloc::{AllocError, Global};
use std::fs::{Files, OpenFile};
use std::io::{BufReader, ErrorKind, Read, Write};
use std::{fs, io};

/// What a pack's name ends with.
const ENDING: &str = ".pack";

/// What is said of a pack that is damaged or another run's.
pub(crate) const NOT_WHOLE: &str = "not a whole pack of this run; it counts as missing";

/// The first line of the packs of a run.
pub(crate) fn head_of(alloc: Global, run: &RunFile) -> Result<String, AllocError>
    ensures { IfOk result (λ line. string_bytes line ≡ head (string_bytes run.now.sum)) }
{
    let sum = run.sum.as_str();
    format!(in alloc; "cubesat pack 2 {sum}\n")
}

/// The bytes of these facts, one behind the other.
fn bodies_of(alloc: Global, facts: &[Fact]) -> Result<Vec<u8>, AllocError>
    ensures { IfOk result (λ bytes. IsPackOf bytes.items facts.now) }
{
    let mut bytes = Vec::new(alloc);
    for fact in facts {
        write_fact(&mut bytes, fact)?;
    }
    Ok(bytes)
}

/// The bytes of a pack with these facts.
fn bytes_of(alloc: Global, run: &RunFile, facts: &[Fact]) -> Result<Vec<u8>, AllocError>
    ensures { IfOk result (λ bytes. IsPackFile (string_bytes run.now.sum) bytes.items facts.now) }
{
    let line = head_of(alloc, run)?;
    let line = line.as_bytes();
    let mut bytes = bodies_of(alloc, facts)?;
    bytes.extend_from_slice(line)?;
    bytes.rotate_right(line.len()); // so a pack isn't in memory twice
    Ok(bytes)
}

/// The name of the pack whose bytes have this sum.
pub(crate) fn name_by(alloc: Global, sum: &str) -> Result<String, AllocError>
    ensures { IfOk result (λ name. string_bytes name ≡ sum.now ++ codes ".pack") }
{
    format!(in alloc; "{sum}{ENDING}")
}

/// The name of the pack with these bytes.
fn name_of(alloc: Global, bytes: &[u8]) -> Result<String, AllocError>
    ensures { IfOk result (λ name. string_bytes name ≡ pack_name bytes.now) }
{
    let sum = sum_of(alloc, bytes)?;
    name_by(alloc, sum.as_str())
}

/// The path of the pack with these bytes.
fn path_of(alloc: Global, folder: Folder, bytes: &[u8]) -> Result<String, AllocError>
    ensures { IfOk result (λ path. string_bytes path ≡ folder.entry.path.now ++ codes "/packs/" ++ pack_name bytes.now) }
{
    let name = name_of(alloc, bytes)?;
    folder.pack(alloc, name.as_str())
}

/// Writes a pack, whose facts are true ones of the run's formula. Two that write the same one at
/// once are in each other's way, and it is there in the end.
fn put_bytes<R: Files>(
    rt: &R,
    alloc: Global,
    folder: Folder,
    run: &RunFile,
    formula: &Formula,
    bytes: &[u8],
) -> io::Result<()>
    requires { IsTruePackFile formula.now run.now.plan (string_bytes run.now.sum) bytes.now }
{
    let _run = run; // it is there for the contract alone, and so is the formula
    let _formula = formula;
    let path = path_of(alloc, folder, bytes)?;
    match write_file(rt, alloc, path.as_str(), bytes) {
        Err(error) if error.kind() == ErrorKind::ResourceBusy => Ok(()),
        written => written,
    }
}

/// Writes a pack with these facts, which are true ones of the run's formula.
fn put<R: Files>(
    rt: &R,
    alloc: Global,
    folder: Folder,
    run: &RunFile,
    formula: &Formula,
    facts: &[Fact],
) -> io::Result<()>
    requires { All (IsTrueFact formula.now run.now.plan) facts.now }
{
    let bytes = bytes_of(alloc, run, facts)?;
    put_bytes(rt, alloc, folder, run, formula, &bytes)
}

/// Writes a pack with these facts, which are true ones of the run's formula, if there are any, or
/// says why it can't.
pub(crate) fn write_pack<R: Files, E: Write>(
    rt: &R,
    alloc: Global,
    folder: Folder,
    run: &RunFile,
    formula: &Formula,
    facts: &[Fact],
    faults: &mut E,
) -> Result<(), Said>
    requires { All (IsTrueFact formula.now run.now.plan) facts.now }
{
    if facts.is_empty() {
        return Ok(());
    }
    match put(rt, alloc, folder, run, formula, facts) {
        Ok(()) => Ok(()),
        Err(error) => Err(say_error(faults, folder.path, error)),
    }
}

/// The names of the packs of a run, in their order.
fn names_in<R: Files + Alloc + Clone + Drop>(
    rt: &R,
    alloc: Global,
    path: &str,
) -> io::Result<Vec<String>> {
    let mut names = Vec::new(alloc);
    for entry in fs::read_dir(rt, path)? {
        let entry = entry?;
        let name = entry.file_name();
        if name.ends_with(ENDING) {
            names.push(String::from_str(alloc, name)?)?;
        }
    }
    names.sort_unstable();
    Ok(names)
}

/// What stands behind the first line of a pack of the run, if the pack is whole: its name is made
/// of its bytes.
fn body_of(
    alloc: Global,
    run: &RunFile,
    name: &str,
    bytes: &[u8],
) -> Result<Option<Vec<u8>>, AllocError>
    ensures { IfOk result (λ o. MatchOption o
        ((body : List ℕ) → ¬ (IsWholePack (string_bytes run.now.sum) name.now bytes.now body))
        (λ body. IsWholePack (string_bytes run.now.sum) name.now bytes.now body.items)) }
{
    let own = name_of(alloc, bytes)?;
    let head = head_of(alloc, run)?;
    if name != own.as_str() {
        return Ok(None);
    }
    match bytes.strip_prefix(head.as_bytes()) {
        Some(body) => Ok(Some(Vec::from_slice(alloc, body)?)),
        None => Ok(None),
    }
}

/// The body of a pack, if it can be read and is whole; if not, that is said, and it counts as
/// missing.
pub(crate) fn read_body<R: Files, E: Write>(
    rt: &R,
    alloc: Global,
    folder: Folder,
    run: &RunFile,
    name: &str,
    faults: &mut E,
) -> Result<Option<Vec<u8>>, AllocError>
    ensures { IfOk result (λ o. IfSome o (λ body. (bytes : List ℕ) × IsWholePack (string_bytes run.now.sum) name.now bytes body.items)) }
{
    let path = folder.pack(alloc, name)?;
    let path = path.as_str();
    let bytes = match read_file(rt, alloc, path) {
        Ok(bytes) => bytes,
        Err(error) => {
            let _ = say_error(faults, path, error);
            return Ok(None);
        }
    };
    let body = body_of(alloc, run, name, &bytes)?;
    if body.is_none() {
        let _ = say(faults, path, NOT_WHOLE);
    }
    Ok(body)
}

/// The names of the packs of a run, in their order, or why they can't be told, which is said.
pub(crate) fn packs_of<R: Files + Alloc + Clone + Drop, E: Write>(
    rt: &R,
    alloc: Global,
    folder: Folder,
    faults: &mut E,
) -> Result<Vec<String>, Said> {
    let Ok(path) = folder.packs(alloc) else {
        return Err(say_no_memory(faults, folder.path));
    };
    match names_in(rt, alloc, path.as_str()) {
        Ok(names) => Ok(names),
        Err(error) => Err(say_error(faults, path.as_str(), error)),
    }
}

/// So many bytes are read at once.
const PIECE: usize = 1 << 16;

/// Where a body stands in its pack.
#[derive(Clone, Copy, Debug, PartialEq, Eq)]
pub(crate) struct Span {
    pub(crate) start: u64,
    pub(crate) length: u64,
}

/// A pack that is gone through. It has as many bytes as the system said when it was opened, so no
/// length that is written in it makes more room than it has bytes.
#[derive(Drop)]
pub(crate) struct Passage<R> {
    reader: R,
    // the sum of what was read
    hasher: Sha256,
    // where the next byte stands
    at: u64,
    // how many bytes there are from there on
    left: u64,
    is_broken_off: bool,
}

/// Opens a pack.
pub(crate) fn open_passage<R: Files>(
    rt: &R,
    alloc: Global,
    path: &str,
) -> io::Result<Passage<BufReader<R::File>>> {
    let file = fs::open(rt, path)?;
    let left = file.metadata()?.len();
    let reader = BufReader::with_capacity(alloc, PIECE, file)?;
    Ok(Passage {
        reader,
        hasher: Sha256::new(),
        at: 0,
        left,
        is_broken_off: false,
    })
}

/// The number of eight bytes, the lowest first.
fn length_of(head: [u8; 8]) -> u64
    ensures { to_le_bytes w64 result ≡ head }
{
    u64::from_le_bytes(head)
}

impl<R: Read> Passage<R> {
    /// Fills a buffer with the next bytes, if there are as many.
    fn fill(&mut self, buffer: &mut [u8]) -> io::Result<bool>
        ensures fewer { IfOk result (λ filled. IsTrue filled → self.new.left + length buffer.old ≡ self.old.left) }
        ensures filled { IfOk result (λ filled. length buffer.old ≤ self.old.left → filled ≡ true) }
        ensures bytes { (before behind : List ℕ) → IsBetween R.remaining self.old before behind → IfOk result (IsFilled R.remaining self.new before behind buffer.new) }
        ensures flag { self.new.is_broken_off ≡ self.old.is_broken_off }
    {
        let count = buffer.len() as u64;
        if count > self.left {
            return Ok(false);
        }
        self.reader.read_exact(buffer)?;
        self.hasher.update(&*buffer);
        self.at = self.at.saturating_add(count);
        self.left -= count;
        Ok(true)
    }

    /// Whether the next bytes are these; if so, they are read.
    pub(crate) fn has(&mut self, alloc: Global, bytes: &[u8]) -> io::Result<bool>
        ensures { (before behind : List ℕ) → IsBetween R.remaining self.old before behind → IfOk result (IsMet R.remaining self.new before behind bytes.now) }
    {
        let mut next = vec![in alloc; 0; bytes.len()]?;
        if !self.fill(&mut next)? {
            return Ok(false);
        }
        Ok(next.as_slice() == bytes)
    }

    /// The length of the next body, if it is all there.
    fn next_length(&mut self) -> io::Result<Option<u64>>
        ensures fewer { IfOk result (λ next. IfSome next (λ n. (self.new.left < self.old.left) × (n ≤ self.new.left))) }
        ensures flag { self.new.is_broken_off ≡ self.old.is_broken_off }
        ensures bytes { (before behind : List ℕ) → IsBetween R.remaining self.old before behind → IfOk result (IsLength R.remaining self.new before behind) }
    {
        let mut head = [0; 8];
        if !self.fill(&mut head)? {
            return Ok(None);
        }
        let length = length_of(head);
        if length > self.left {
            return Ok(None);
        }
        Ok(Some(length))
    }

    /// Where the next body stands, if there is one; it is read in place of what is in `body`. Where
    /// there is none, the pack ends there or breaks off.
    pub(crate) fn next(&mut self, body: &mut Vec<u8>) -> io::Result<Option<Span>>
        ensures fewer { IfOk result (λ next. IfSome next (λ _. self.new.left < self.old.left)) }
        ensures bytes { (before behind : List ℕ) → IsBetween R.remaining self.old before behind → IfOk result (IsNext R.remaining self.new before behind body.new.items) }
    {
        self.is_broken_off = self.left != 0; // until a body is read
        let Some(length) = self.next_length()? else {
            return Ok(None);
        };
        let start = self.at;
        body.resize(length as usize, 0)?;
        if !self.fill(body)? {
            return Ok(None);
        }
        self.is_broken_off = false;
        Ok(Some(Span { start, length }))
    }

    /// Whether the pack broke off, where `next` gave none.
    pub(crate) fn is_broken_off(&self) -> bool
        ensures { result ≡ self.now.is_broken_off }
    {
        self.is_broken_off
    }

    /// Reads what is left.
    fn pass_rest(&mut self, alloc: Global) -> io::Result<()>
        ensures { (bytes : List ℕ) → IsWithin R.remaining self.old bytes → OnOk result (Holds256 self.new.hasher bytes) }
    {
        let mut piece = Vec::new(alloc);
        while self.left > 0 {
            let count = self.left.min(PIECE as u64);
            piece.resize(count as usize, 0)?;
            self.fill(&mut piece)?;
        }
        Ok(())
    }

    /// The sum of all bytes, in hexadecimal digits. What wasn't read yet is.
    pub(crate) fn sum(mut self, alloc: Global) -> io::Result<String>
    where
        R: Drop,
        ensures { (bytes : List ℕ) → IsWithin R.remaining self bytes → IfOk result (λ text. string_bytes text ≡ sum_of bytes) }
    {
        self.pass_rest(alloc)?;
        let Passage {
            reader: _,
            hasher,
            at: _,
            left: _,
            is_broken_off: _,
        } = self;
        Ok(hex::encode(alloc, hasher.finalize())?)
    }
}
