//! What `gather` is made from: the run that a folder holds, and the facts of its packs; and what is said
//! where cubes are missing.
ghost use Rattle.std.specs.Prelude.{◌≡◌, ◌⊎◌, OnOk};
ghost use Rattle.std.specs.Io.KnownBytes.{Appends};
ghost use Rattle.runs.specs.Answer.{unknown_text};

use crate::standing_lines::{DONE, open_of, status_printed};
use cnf::{Formula, ReadFault, read_formula_within};
use commands::{FAILED, print_no_memory};
use cubes::HandCount;
use spread::{
    Folder, PackStore, RunFile, Said, formula_bytes_in, progress_in, run_in, store_in,
    withhold_splits,
};
use std::alloc::{AllocError, Global};
use std::fs::Files;
use std::io;
use std::io::Write;
use std::thread::Threads;

/// What the folder of a run holds, but for its packs.
#[derive(Drop)]
pub(crate) struct Held {
    pub(crate) run: RunFile,
    /// The formula's bytes.
    pub(crate) formula: Vec<u8>,
}

/// What the folder of a run holds; the formula is the one of the run.
pub(crate) fn held_in<R: Files, E: Write>(
    rt: &R,
    alloc: Global,
    folder: Folder<'_>,
    faults: &mut E,
) -> Result<Held, Said> {
    let run = run_in(rt, alloc, folder, faults)?;
    let formula = formula_bytes_in(rt, alloc, folder, &run, faults)?;
    Ok(Held { run, formula })
}

/// The run's formula, or that memory was refused. There is none where it can't be read: what is wrong
/// with it is said where it is gathered.
pub(crate) fn formula_of(alloc: Global, held: &Held) -> Result<Option<Formula>, AllocError> {
    match read_formula_within(alloc, &held.formula, held.run.limits) {
        Ok(formula) => Ok(Some(formula)),
        Err(ReadFault::NoMemory) => Err(AllocError),
        Err(_) => Ok(None),
    }
}

/// How many cubes the packs of a run leave open. What is said of packs on the way is only printed
/// where some are, or they can't be told: gathering says it again.
fn missing_in<R: Files + Alloc + Clone + Drop, E: Write>(
    rt: &R,
    alloc: Global,
    folder: Folder<'_>,
    run: &RunFile,
    formula: &Formula,
    faults: &mut E,
) -> Result<usize, Said> {
    let mut said = Vec::new(alloc);
    let missing = progress_in(rt, alloc, folder, run, formula, &mut said).map(open_of);
    match missing {
        Ok(0) => {}
        _ => {
            let _ = faults.write_all(&said);
        }
    }
    missing
}

/// Writes that the answer is unknown.
fn write_unknown<W: Write>(answer: &mut W) -> io::Result<()>
    ensures { OnOk result (Appends (W.contents answer.old) (W.contents answer.new) unknown_text) }
{
    answer.write_all(b"s UNKNOWN\n")
}

/// Prints how many cubes are missing, what to do, and that the answer is unknown; the status.
pub(crate) fn print_missing<W: Write, E: Write>(
    answer: &mut W,
    faults: &mut E,
    path: &str,
    missing: usize,
) -> u8
    ensures { (result ≡ 0) ⊎ (result ≡ 1) }
{
    let cubes = if missing == 1 { "cube is" } else { "cubes are" };
    let _ = writeln!(
        faults,
        "cubesat: {path}: {missing} {cubes} missing; write a round of them by `cubesat divide --into` and solve it, or gather with --solve"
    );
    let written = write_unknown(answer);
    status_printed(faults, written, DONE)
}

/// The facts of a run's packs, over so many variables.
fn opened_store<'a, R: Files + Threads + Sync + Alloc + Clone + Drop, E: Write>(
    rt: &'a R,
    alloc: Global,
    folder: Folder<'_>,
    run: &RunFile,
    vars: u32,
    hands: HandCount,
    faults: &mut E,
) -> Result<PackStore<'a, R>, u8>
where
    R::File: Send,
    R::Dir: Send,
{
    match store_in(rt, alloc, folder, run, vars, hands, faults) {
        Ok(store) => Ok(store),
        Err(Said) => Err(FAILED),
    }
}

/// The facts of a run, by which cubes are solved of which none is so.
fn solving_store<'a, R: Files + Threads + Sync + Alloc + Clone + Drop, E: Write>(
    rt: &'a R,
    alloc: Global,
    folder: Folder<'_>,
    run: &RunFile,
    formula: &Formula,
    hands: HandCount,
    faults: &mut E,
) -> Result<PackStore<'a, R>, u8>
where
    R::File: Send,
    R::Dir: Send,
{
    let vars = formula.vars();
    let mut store = opened_store(rt, alloc, folder, run, vars, hands, faults)?;
    match withhold_splits(rt, alloc, folder, run, formula, &mut store, faults) {
        Ok(()) => Ok(store),
        Err(Said) => Err(FAILED),
    }
}

/// The facts of a run, by which nothing is solved; or else the status, where packs tell that cubes are
/// missing, which is said.
fn checked_store<'a, R: Files + Threads + Sync + Alloc + Clone + Drop, W: Write, E: Write>(
    rt: &'a R,
    alloc: Global,
    folder: Folder<'_>,
    run: &RunFile,
    formula: &Formula,
    hands: HandCount,
    answer: &mut W,
    faults: &mut E,
) -> Result<PackStore<'a, R>, u8>
where
    R::File: Send,
    R::Dir: Send,
{
    match missing_in(rt, alloc, folder, run, formula, faults) {
        Ok(0) => {}
        Ok(missing) => return Err(print_missing(answer, faults, folder.path, missing)),
        Err(Said) => return Err(FAILED),
    }
    let vars = formula.vars();
    let store = opened_store(rt, alloc, folder, run, vars, hands, faults)?;
    Ok(store.without_solving())
}

/// The facts of a run; or else the status. Where the formula can't be read, there are none, and that is
/// said where it is gathered.
pub(crate) fn store_for<'a, R: Files + Threads + Sync + Alloc + Clone + Drop, W: Write, E: Write>(
    rt: &'a R,
    alloc: Global,
    folder: Folder<'_>,
    held: &Held,
    hands: HandCount,
    solves: bool,
    answer: &mut W,
    faults: &mut E,
) -> Result<PackStore<'a, R>, u8>
where
    R::File: Send,
    R::Dir: Send,
{
    let run = &held.run;
    let Ok(formula) = formula_of(alloc, held) else {
        return Err(print_no_memory(faults, folder.path, false));
    };
    match formula {
        None => opened_store(rt, alloc, folder, run, 0, hands, faults),
        Some(formula) if solves => solving_store(rt, alloc, folder, run, &formula, hands, faults),
        Some(formula) => checked_store(rt, alloc, folder, run, &formula, hands, answer, faults),
    }
}
