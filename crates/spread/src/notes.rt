//! Notes in the folder of a run: where models were found, so that parts which have only cubes right
//! of one can end, and which parts are at work. A part that is killed leaves its own.
ghost use Rattle.std.specs.Prelude.{◌≡◌, ◌++◌, IfOk, map, take, codes, string_bytes};
ghost use Rattle.spread.specs.Models.{sign};

use crate::folder::Folder;
use crate::slice::Slice;
use kernel::Cube;
use std::alloc::{AllocError, Global};
use std::fs::Files;
use std::io::{ErrorKind, Write};
use std::time::{Clock, SystemTime};
use std::{fs, io};

/// Of so many literals at most the name of a model tells the signs, since a file's name is bounded.
const MOST_SIGNS: usize = 200;

/// The name of a cube: its literals' signs, 0 for a negative one. Cubes of one tree lie from left to
/// right in the order of their names.
fn name_of(alloc: Global, cube: &Cube) -> Result<String, AllocError>
    ensures { IfOk result (λ name. string_bytes name ≡ codes "m" ++ map sign (take 200 cube.now)) }
{
    let mut name = String::from_str(alloc, "m")?;
    let lits = cube.lits();
    let count = lits.len().min(MOST_SIGNS);
    for lit in &lits[..count] {
        name.push(if lit.positive() { '1' } else { '0' })?;
    }
    Ok(name)
}

/// Whether the cube of a name lies left of that of another, and neither is part of the other.
fn is_left(name: &str, other: &str) -> bool {
    for (sign, its) in name.bytes().zip(other.bytes()) {
        if sign != its {
            return sign < its;
        }
    }
    false
}

/// Notes that a cube has a model.
pub(crate) fn note_model<R: Files>(
    rt: &R,
    alloc: Global,
    folder: Folder,
    cube: &Cube,
) -> io::Result<()> {
    let name = name_of(alloc, cube)?;
    let path = folder.model(alloc, name.as_str())?;
    fs::create(rt, path.as_str())?;
    Ok(())
}

/// Whether a model was noted left of a cube.
fn found_left<R: Files + Alloc + Clone + Drop>(
    rt: &R,
    alloc: Global,
    folder: Folder,
    cube: &Cube,
) -> io::Result<bool> {
    let name = name_of(alloc, cube)?;
    for entry in fs::read_dir(rt, folder.models(alloc)?.as_str())? {
        let entry = entry?;
        if is_left(entry.file_name(), name.as_str()) {
            return Ok(true);
        }
    }
    Ok(false)
}

/// Whether a model was noted left of a cube, so that the cube needn't be solved. Where the notes
/// can't be read, none was.
pub(crate) fn is_needless<R: Files + Alloc + Clone + Drop>(
    rt: &R,
    alloc: Global,
    folder: Folder,
    cube: &Cube,
) -> bool {
    found_left(rt, alloc, folder, cube).unwrap_or(false)
}

// a byte is written, so that any file system counts it as written anew
fn make_note<R: Files>(
    rt: &R,
    alloc: Global,
    folder: Folder,
    round: u32,
    slice: Slice,
) -> io::Result<()> {
    let _ = fs::create_dir(rt, folder.parts(alloc)?.as_str()); // it is there mostly
    let path = folder.part(alloc, round, slice)?;
    let mut file = fs::create(rt, path.as_str())?;
    file.write_all(b"\n")
}

/// Notes that a part of a round is at work now. That it can't be noted hinders nothing.
pub(crate) fn note_at_work<R: Files>(
    rt: &R,
    alloc: Global,
    folder: Folder,
    round: u32,
    slice: Slice,
) {
    let _ = make_note(rt, alloc, folder, round, slice);
}

/// Notes that a part of a round has ended.
pub(crate) fn note_ended<R: Files>(
    rt: &R,
    alloc: Global,
    folder: Folder,
    round: u32,
    slice: Slice,
) {
    if let Ok(path) = folder.part(alloc, round, slice) {
        let _ = fs::remove_file(rt, path.as_str());
    }
}

/// A part of a run that has begun and not ended, or was killed.
#[derive(Debug, PartialEq, Eq, Drop)]
pub struct PartNote {
    /// The name of its note: the round, the part's number and how many parts there are, as `0001-3-16`.
    pub name: String,
    /// How many seconds ago it was written last, if the times of files tell.
    pub age: Option<u64>,
}

/// The names of the notes in the folder of parts, in their order.
fn names_in<R: Files + Alloc + Clone + Drop>(
    rt: &R,
    alloc: Global,
    folder: Folder,
) -> io::Result<Vec<String>> {
    let mut names = Vec::new(alloc);
    for entry in fs::read_dir(rt, folder.parts(alloc)?.as_str())? {
        let entry = entry?;
        names.push(String::from_str(alloc, entry.file_name())?)?;
    }
    names.sort_unstable();
    Ok(names)
}

/// How many seconds ago a file was written, if its time and the clock tell; one of a clock ahead, 0.
fn age_of<R: Files + Clock>(rt: &R, path: &str) -> io::Result<u64> {
    let written = fs::metadata(rt, path)?.modified()?;
    match SystemTime::now(rt)?.duration_since(written) {
        Ok(time) => Ok(time.as_secs()),
        Err(_) => Ok(0),
    }
}

/// The parts of a run that are at work, or were killed, by their names. Where the notes can't be read,
/// none is known; it fails where a request for memory is refused.
pub(crate) fn parts_at_work<R: Files + Clock + Alloc + Clone + Drop>(
    rt: &R,
    alloc: Global,
    folder: Folder,
) -> Result<Vec<PartNote>, AllocError> {
    let names = match names_in(rt, alloc, folder) {
        Ok(names) => names,
        Err(error) if error.kind() == ErrorKind::OutOfMemory => return Err(AllocError),
        Err(_) => Vec::new(alloc),
    };
    let mut parts = Vec::new(alloc);
    for name in names {
        let path = folder.note(alloc, name.as_str())?;
        let age = age_of(rt, path.as_str()).ok();
        parts.push(PartNote { name, age })?;
    }
    Ok(parts)
}
