//! The open cubes of a round as a file: a line each, of its literals and a 0.
ghost use Rattle.std.specs.Prelude.{◌≡◌, IfSome, false};
ghost use Rattle.theory.specs.Literals.{has_var};

use crate::folder::{Folder, read_file, write_file};
use crate::said::{Said, say, say_error, say_no_memory};
use cnf::{Formula, Lit};
use kernel::Cube;
use packs::is_fit_split;
use std::alloc::{AllocError, Global};
use std::fmt::Write as _;
use std::fs::Files;
use std::io::{ErrorKind, Write};
use std::{fs, io, str};

/// The most rounds of a run.
const MOST_ROUNDS: u32 = 9999;

fn text_of(alloc: Global, cubes: &[Cube]) -> Result<String, AllocError> {
    let mut text = String::new(alloc);
    for cube in cubes {
        write_cube(&mut text, cube)?;
    }
    Ok(text)
}

fn put<R: Files>(
    rt: &R,
    alloc: Global,
    folder: Folder,
    number: u32,
    cubes: &[Cube],
) -> io::Result<()> {
    let path = folder.round(alloc, number)?;
    let text = text_of(alloc, cubes)?;
    write_file(rt, alloc, path.as_str(), text.as_bytes())
}

/// Writes the open cubes of a round, or says why it can't.
pub(crate) fn write_round<R: Files, E: Write>(
    rt: &R,
    alloc: Global,
    folder: Folder,
    number: u32,
    cubes: &[Cube],
    faults: &mut E,
) -> Result<(), Said> {
    match put(rt, alloc, folder, number, cubes) {
        Ok(()) => Ok(()),
        Err(error) => Err(say_error(faults, folder.path, error)),
    }
}

fn first_missing<R: Files>(rt: &R, alloc: Global, folder: Folder) -> io::Result<Option<u32>> {
    for number in 1..MOST_ROUNDS + 1 {
        let path = folder.round(alloc, number)?;
        if !fs::exists(rt, path.as_str())? {
            return Ok(Some(number));
        }
    }
    Ok(None)
}

/// The number of the next round, or why there is none, which is said.
pub(crate) fn next_round<R: Files, E: Write>(
    rt: &R,
    alloc: Global,
    folder: Folder,
    faults: &mut E,
) -> Result<u32, Said> {
    match first_missing(rt, alloc, folder) {
        Ok(Some(number)) => Ok(number),
        Ok(None) => Err(say(faults, folder.path, "a run has at most 9999 rounds")),
        Err(error) => Err(say_error(faults, folder.path, error)),
    }
}

/// How many rounds a run has, or why that can't be told, which is said.
pub(crate) fn rounds_of<R: Files, E: Write>(
    rt: &R,
    alloc: Global,
    folder: Folder,
    faults: &mut E,
) -> Result<u32, Said> {
    match first_missing(rt, alloc, folder) {
        Ok(Some(number)) => Ok(number.saturating_sub(1)),
        Ok(None) => Ok(MOST_ROUNDS),
        Err(error) => Err(say_error(faults, folder.path, error)),
    }
}

/// The cubes of the lines, or none where a line is no cube over the formula's variables.
fn cubes_of(alloc: Global, formula: &Formula, text: &str) -> Result<Option<Vec<Cube>>, AllocError> {
    let mut cubes = Vec::new(alloc);
    for line in text.lines() {
        match read_cube(alloc, formula, line)? {
            Some(cube) => cubes.push(cube)?,
            None => return Ok(None),
        }
    }
    Ok(Some(cubes))
}

fn read<R: Files>(
    rt: &R,
    alloc: Global,
    formula: &Formula,
    path: &str,
) -> io::Result<Option<Vec<Cube>>> {
    let bytes = read_file(rt, alloc, path)?;
    let Ok(text) = str::from_utf8(&bytes) else {
        return Ok(None);
    };
    Ok(cubes_of(alloc, formula, text)?)
}

/// The open cubes of a round, or why they can't be read, which is said.
pub(crate) fn read_round<R: Files, E: Write>(
    rt: &R,
    alloc: Global,
    folder: Folder,
    number: u32,
    formula: &Formula,
    faults: &mut E,
) -> Result<Vec<Cube>, Said> {
    let Ok(path) = folder.round(alloc, number) else {
        return Err(say_no_memory(faults, folder.path));
    };
    let path = path.as_str();
    match read(rt, alloc, formula, path) {
        Ok(Some(cubes)) => Ok(cubes),
        Ok(None) => Err(say(
            faults,
            path,
            "not the cubes of a round; `cubesat divide --into` writes the next one",
        )),
        Err(error) if error.kind() == ErrorKind::NotFound => Err(say(
            faults,
            path,
            "there is no such round; `cubesat divide --into` writes the next one",
        )),
        Err(error) => Err(say_error(faults, path, error)),
    }
}

/// Puts the line of a cube at the end of a text.
pub(crate) fn write_cube(text: &mut String, cube: &Cube) -> Result<(), AllocError> {
    for lit in cube.lits() {
        let number = lit.number();
        write!(text, "{number} ")?;
    }
    text.push_str("0\n")
}

/// The literal of a word, if it is one whose variable the cube may have next.
fn literal_of(formula: &Formula, cube: &Cube, word: &str) -> Option<Lit>
    ensures { IfSome result (λ l. has_var cube.now l.var ≡ false) }
{
    let number = word.parse::<i32>().ok()?;
    let lit = Lit::new(number)?;
    if is_fit_split(formula, cube, lit.var()) {
        Some(lit)
    } else {
        None
    }
}

/// The cube of a line, if it is one over the formula's variables. It takes the square of the
/// literals' number.
pub(crate) fn read_cube(
    alloc: Global,
    formula: &Formula,
    line: &str,
) -> Result<Option<Cube>, AllocError> {
    let mut cube = Cube::root(alloc);
    for word in line.split_ascii_whitespace() {
        if word == "0" {
            return Ok(Some(cube));
        }
        match literal_of(formula, &cube, word) {
            Some(lit) => cube.push(lit)?,
            None => return Ok(None),
        }
    }
    Ok(None)
}
