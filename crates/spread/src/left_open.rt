//! The cubes that the packs of a run leave open.
ghost use Rattle.std.specs.Prelude.{◌≡◌, ◌∷◌, [], IfOk};
ghost use Rattle.spread.specs.OpenCubes.{AreWordsOf, AreLeftOpen};

use crate::folder::Folder;
use crate::open_cubes::{OpenCubes, Words, open_cubes};
use crate::pack_file::{packs_of, read_body};
use crate::run_file::RunFile;
use crate::said::{Said, say_no_memory};
use cnf::Formula;
use kernel::Cube;
use packs::read_pack;
use std::alloc::{AllocError, Global};
use std::fs::Files;
use std::io::Write;

/// What packs of a run say of these cubes, which are over so many variables, and of those below
/// them.
fn words_in<R: Files, E: Write>(
    rt: &R,
    alloc: Global,
    folder: Folder,
    run: &RunFile,
    names: &[String],
    vars: u32,
    cubes: &[Cube],
    faults: &mut E,
) -> Result<Words, AllocError>
    ensures { IfOk result (AreWordsOf cubes.now) }
{
    let mut words = Words::of(alloc, cubes)?;
    for name in names {
        if let Some(body) = read_body(rt, alloc, folder, run, name.as_str(), faults)? {
            let pack = read_pack(alloc, vars, &body)?;
            words.add(alloc, &pack.facts)?;
        }
    }
    Ok(words)
}

fn open_by<R: Files, E: Write>(
    rt: &R,
    alloc: Global,
    folder: Folder,
    run: &RunFile,
    names: &[String],
    formula: &Formula,
    way: Vec<Cube>,
    faults: &mut E,
) -> Result<OpenCubes, AllocError>
    ensures { IfOk result (λ o. AreLeftOpen formula.now way.items o.cubes.items o.has_model) }
{
    let vars = formula.vars();
    let words = words_in(rt, alloc, folder, run, names, vars, &way, faults)?;
    let left = open_cubes(alloc, formula, &words, way)?;
    Ok(left)
}

/// Of the cubes on a way, the last one first, what the packs of a run leave open, or why that can't
/// be told, which is said. Nothing of what packs say is checked; that is what gathering does. One
/// that can't be read, is damaged or is another run's is named, and counts as missing. It takes the
/// time of reading all packs, and memory for one at a time, and for what is said of cubes on the
/// way and of those below them.
pub(crate) fn left_open<R: Files + Alloc + Clone + Drop, E: Write>(
    rt: &R,
    alloc: Global,
    folder: Folder,
    run: &RunFile,
    formula: &Formula,
    way: Vec<Cube>,
    faults: &mut E,
) -> Result<OpenCubes, Said>
    ensures { IfOk result (λ o. AreLeftOpen formula.now way.items o.cubes.items o.has_model) }
{
    let names = packs_of(rt, alloc, folder, faults)?;
    match open_by(rt, alloc, folder, run, &names, formula, way, faults) {
        Ok(open) => Ok(open),
        Err(_) => Err(say_no_memory(faults, folder.path)),
    }
}

/// The cube without literals, by itself.
pub(crate) fn root_alone(alloc: Global) -> Result<Vec<Cube>, AllocError>
    ensures { IfOk result (λ way. way.items ≡ [] ∷ []) }
{
    let mut way = Vec::new(alloc);
    way.push(Cube::root(alloc))?;
    Ok(way)
}

/// What the packs of a run leave open of the formula's whole tree, as `left_open` tells it.
pub(crate) fn open_in<R: Files + Alloc + Clone + Drop, E: Write>(
    rt: &R,
    alloc: Global,
    folder: Folder,
    run: &RunFile,
    formula: &Formula,
    faults: &mut E,
) -> Result<OpenCubes, Said>
    ensures { IfOk result (λ o. AreLeftOpen formula.now ([] ∷ []) o.cubes.items o.has_model) }
{
    let Ok(root) = root_alone(alloc) else {
        return Err(say_no_memory(faults, folder.path));
    };
    let open = left_open(rt, alloc, folder, run, formula, root, faults)?;
    Ok(open)
}
