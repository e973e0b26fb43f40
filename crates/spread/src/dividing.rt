//! Making a run, and its next rounds.
ghost use Rattle.std.specs.Prelude.{◌≡◌, All, IfOk, length};
ghost use Rattle.gathering.specs.Facts.{IsTrueFact};
ghost use Rattle.spread.specs.Progress.{progress_by};
ghost use Rattle.spread.specs.RunFiles.{IsSettled};

use crate::begun::begun_for;
use crate::bound::{End, MOST_CONFLICTS};
use crate::breadth::{Division, by_breadth};
use crate::folder::{Folder, read_file, sum_of, write_file};
use crate::left_open::open_in;
use crate::notes::{PartNote, parts_at_work};
use crate::open_count::OpenCount;
use crate::pack_file::write_pack;
use crate::round_file::{next_round, write_round};
use crate::run_file::{RunFile, formula_in, formula_of, run_in, run_of, run_text};
use crate::said::{Said, say, say_error, say_no_memory};
use cnf::{Formula, Limits};
use cubes::{Gate, OpenGate};
use kernel::Cube;
use packs::{Claim, Fact};
use std::alloc::{AllocError, Global};
use std::fs::Files;
use std::io::{ErrorKind, Write};
use std::time::Clock;
use std::{fs, io};
use strategies::{Strategy, Unobserved, chosen};

/// What is known of the formula of a run.
#[derive(Clone, Copy, Debug, PartialEq, Eq)]
pub enum Progress {
    /// So many cubes are open.
    Open(usize),
    /// A model was claimed, and nothing left of it is open.
    Satisfiable,
    /// Each cube was refuted, as is claimed.
    Unsatisfiable,
}

/// By how many cubes are open, and whether a model was claimed right of them.
pub(crate) fn progress_of(count: usize, has_model: bool) -> Progress
    ensures { result ≡ progress_by count has_model }
{
    if count > 0 {
        Progress::Open(count)
    } else if has_model {
        Progress::Satisfiable
    } else {
        Progress::Unsatisfiable
    }
}

/// Makes a folder, unless it is there.
fn make_folder<R: Files>(rt: &R, path: &str) -> io::Result<()> {
    match fs::create_dir(rt, path) {
        Err(error) if error.kind() == ErrorKind::AlreadyExists => Ok(()),
        made => made,
    }
}

/// The folders in that of a run.
static FOLDERS: [&str; 4] = ["packs", "rounds", "models", "parts"];

/// Makes the folder of a run and those in it.
fn make_folders<R: Files>(rt: &R, alloc: Global, folder: Folder) -> io::Result<()> {
    let path = folder.path;
    make_folder(rt, path)?;
    for name in &FOLDERS {
        make_folder(rt, format!(in alloc; "{path}/{name}")?.as_str())?;
    }
    Ok(())
}

/// Makes the folders of a run, and copies its formula there.
fn put_formula<R: Files>(rt: &R, alloc: Global, folder: Folder, bytes: &[u8]) -> io::Result<()> {
    make_folders(rt, alloc, folder)?;
    write_file(rt, alloc, folder.formula(alloc)?.as_str(), bytes)
}

/// Whether there is a run in a folder.
fn has_run<R: Files>(rt: &R, alloc: Global, folder: Folder) -> io::Result<bool> {
    fs::exists(rt, folder.run(alloc)?.as_str())
}

/// The text of the file that says what the run is.
fn text_for(
    alloc: Global,
    strategy: Strategy,
    limits: Limits,
    bytes: &[u8],
) -> Result<String, AllocError> {
    let sum = sum_of(alloc, bytes)?;
    let (plan, lowers) = (strategy.plan(), strategy.lowers());
    run_text(alloc, &plan, lowers, limits, sum.as_str())
}

/// The run of a strategy's plan, some limits and a formula's bytes, with its text.
fn new_run(
    alloc: Global,
    strategy: Strategy,
    limits: Limits,
    bytes: &[u8],
) -> Result<Option<(RunFile, String)>, AllocError> {
    let text = text_for(alloc, strategy, limits, bytes)?;
    match run_of(alloc, text.as_bytes())? {
        Some(run) => Ok(Some((run, text))),
        None => Ok(None),
    }
}

/// Writes what the division came to, and the file that says what the run is last: without it there
/// is no run.
fn write_run<R: Files, E: Write>(
    rt: &R,
    alloc: Global,
    folder: Folder,
    run: &RunFile,
    text: &str,
    formula: &Formula,
    division: &mut Division,
    faults: &mut E,
) -> Result<Progress, Said>
    requires { All (IsTrueFact formula.now run.now.plan) division.old.facts.items }
    ensures { IfOk result (λ progress. progress ≡ progress_by (length division.old.waiting.items) division.old.has_model) }
{
    write_pack(rt, alloc, folder, run, formula, &division.facts, faults)?;
    let cubes: Vec<Cube> = match division.waiting.drain(..).collect(alloc) {
        Ok(cubes) => cubes,
        Err(_) => return Err(say_no_memory(faults, folder.path)),
    };
    write_round(rt, alloc, folder, 1, &cubes, faults)?;
    let Ok(path) = folder.run(alloc) else {
        return Err(say_no_memory(faults, folder.path));
    };
    match write_file(rt, alloc, path.as_str(), text.as_bytes()) {
        Ok(()) => Ok(progress_of(cubes.len(), division.has_model)),
        Err(error) => Err(say_error(faults, path.as_str(), error)),
    }
}

/// Whether a run can be made in the folder; if not, it is said why.
fn check_free<R: Files, E: Write>(
    rt: &R,
    alloc: Global,
    folder: Folder,
    faults: &mut E,
) -> Result<(), Said> {
    match has_run(rt, alloc, folder) {
        Ok(false) => Ok(()),
        Ok(true) => Err(say(
            faults,
            folder.path,
            "there is a run already; its next round is written where no formula is named",
        )),
        Err(error) => Err(say_error(faults, folder.path, error)),
    }
}

/// Says so where a division met many conflicts and yet refuted no cube: with so small a budget the run may
/// come to no end.
fn say_unrefuted<E: Write>(faults: &mut E, path: &str, division: &Division, budget: u32) {
    let is_split = |fact: &Fact| matches!(fact.claim, Claim::Split(_));
    let conflicts = division.conflicts;
    if conflicts >= MOST_CONFLICTS && division.facts.iter().all(is_split) {
        let _ = writeln!(
            faults,
            "cubesat: {path}: no cube was refuted in {conflicts} conflicts; unless later rounds leave fewer cubes open, make another run with a --budget above {budget}"
        );
    }
}

/// Says why a division that ended early did so, or may come to nothing, and what to change.
fn say_end<E: Write>(faults: &mut E, path: &str, division: &Division, wanted: usize, budget: u32) {
    let open = division.waiting.len();
    match division.end {
        End::Done => say_unrefuted(faults, path, division, budget),
        End::AtBound => {
            let _ = writeln!(
                faults,
                "cubesat: {path}: {open} of {wanted} cubes are open, and the next one takes more than {MOST_CONFLICTS} conflicts, which are left to `cubesat conquer`; for more cubes make another run with a smaller --budget"
            );
        }
        End::Whole => {
            let _ = writeln!(
                faults,
                "cubesat: {path}: {open} of {wanted} cubes are open: the formula isn't divided, since by its first conflicts cubes would take longer, so `cubesat solve` on one machine is as fast; a smaller --budget splits it all the same"
            );
        }
    }
}

/// Solves the cubes of what a run's search begins with by breadth until at least `wanted` are open, or
/// one comes to the bound, and writes what that came to. The run's formula is the one at this path.
fn write_division<R: Files, E: Write, G: Gate>(
    rt: &R,
    alloc: Global,
    folder: Folder,
    path: &str,
    run: &RunFile,
    text: &str,
    formula: &Formula,
    wanted: usize,
    open: &OpenCount,
    gate: &G,
    faults: &mut E,
) -> Result<Progress, Said> {
    let Ok(mut division) = by_breadth(alloc, formula, run.plan, wanted, open, gate) else {
        return Err(say_no_memory(faults, path));
    };
    say_end(faults, folder.path, &division, wanted, run.plan.budget());
    write_run(rt, alloc, folder, run, text, formula, &mut division, faults)
}

/// The strategy whose plan is the chosen one.
fn settled(alloc: Global, formula: &Formula, strategy: Strategy) -> Result<Strategy, AllocError>
    ensures { IfOk result (IsSettled formula.now strategy) }
{
    let plan = chosen(alloc, formula, strategy, &OpenGate, &Unobserved)?;
    Ok(strategy.chosen(plan))
}

/// Reads the formula at a path, and puts its bytes, which are given too, into the folder of a run that is
/// made.
fn begin_run<R: Files, E: Write>(
    rt: &R,
    alloc: Global,
    folder: Folder,
    path: &str,
    limits: Limits,
    faults: &mut E,
) -> Result<(Vec<u8>, Formula), Said> {
    check_free(rt, alloc, folder, faults)?;
    let bytes = match read_file(rt, alloc, path) {
        Ok(bytes) => bytes,
        Err(error) => return Err(say_error(faults, path, error)),
    };
    let formula = formula_of(alloc, path, &bytes, limits, faults)?;
    match put_formula(rt, alloc, folder, &bytes) {
        Ok(()) => Ok((bytes, formula)),
        Err(error) => Err(say_error(faults, folder.path, error)),
    }
}

/// The run of a formula by the plan that the strategy chooses, with its text.
fn chosen_run(
    alloc: Global,
    formula: &Formula,
    strategy: Strategy,
    limits: Limits,
    bytes: &[u8],
) -> Result<Option<(RunFile, String)>, AllocError> {
    let strategy = settled(alloc, formula, strategy)?;
    new_run(alloc, strategy, limits, bytes)
}

/// Makes the run of a formula: finds the plan that decides it by the strategy, solves its cubes by
/// breadth until at least `wanted` are open, and writes what was found, the formula and the open
/// cubes into the folder. It ends before, and says so, at a cube that has had 20,000 conflicts, which stays
/// open: what machines solve is the same. The open cubes are counted on the way, and the gate is told of those
/// that are solved as of a hand's.
pub fn divide<R: Files, E: Write, G: Gate>(
    rt: &R,
    alloc: Global,
    folder: Folder,
    path: &str,
    strategy: Strategy,
    limits: Limits,
    wanted: usize,
    open: &OpenCount,
    gate: &G,
    faults: &mut E,
) -> Result<Progress, Said> {
    let (bytes, formula) = begin_run(rt, alloc, folder, path, limits, faults)?;
    let Ok(Some((run, text))) = chosen_run(alloc, &formula, strategy, limits, &bytes) else {
        return Err(say_no_memory(faults, folder.path));
    };
    let begun = begun_for(alloc, path, &formula, run.plan, gate, faults)?;
    let searched = begun.formula(&formula);
    let text = text.as_str();
    write_division(
        rt, alloc, folder, path, &run, text, searched, wanted, open, gate, faults,
    )
}

/// Says how many parts are at work, if any are, and how old their last words are: what they solve is in
/// the next round too.
fn say_at_work<E: Write>(faults: &mut E, folder: Folder, parts: &[PartNote]) {
    let (path, count) = (folder.path, parts.len());
    let youngest = parts.iter().filter_map(|part| part.age).min();
    let oldest = parts.iter().filter_map(|part| part.age).max();
    if let (Some(youngest), Some(oldest)) = (youngest, oldest) {
        let _ = writeln!(
            faults,
            "cubesat: {path}: parts at work, or killed: {count}, whose last words came {youngest} to {oldest} s ago; what they solve is in the next round too"
        );
    }
}

/// Writes the next round of a run: the cubes that its packs leave open. Nothing of what the packs
/// say is checked; that is what gathering does. Where parts of the run are at work, that is said.
pub fn divide_again<R: Files + Clock + Alloc + Clone + Drop, E: Write>(
    rt: &R,
    alloc: Global,
    folder: Folder,
    faults: &mut E,
) -> Result<Progress, Said> {
    let run = run_in(rt, alloc, folder, faults)?;
    let Ok(parts) = parts_at_work(rt, alloc, folder) else {
        return Err(say_no_memory(faults, folder.path));
    };
    say_at_work(faults, folder, &parts);
    let formula = formula_in(rt, alloc, folder, &run, faults)?;
    let open = open_in(rt, alloc, folder, &run, &formula, faults)?;
    if !open.cubes.is_empty() {
        let number = next_round(rt, alloc, folder, faults)?;
        write_round(rt, alloc, folder, number, &open.cubes, faults)?;
    }
    Ok(progress_of(open.cubes.len(), open.has_model))
}
