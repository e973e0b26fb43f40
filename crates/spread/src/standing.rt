//! How far a run is, as its folder tells. Nothing is written, and nothing of what packs say is checked.
ghost use Rattle.std.specs.Prelude.{IfOk};
ghost use Rattle.spread.specs.Progress.{IsKnown};

use crate::dividing::{Progress, progress_of};
use crate::folder::Folder;
use crate::left_open::open_in;
use crate::notes::{PartNote, parts_at_work};
use crate::pack_file::packs_of;
use crate::round_file::rounds_of;
use crate::run_file::{RunFile, formula_in, run_in};
use crate::said::{Said, say_no_memory};
use cnf::Formula;
use std::alloc::Global;
use std::fs::Files;
use std::io::Write;
use std::time::{Clock, SystemTime};
use std::{fs, io};

/// How far a run is.
#[derive(Debug, PartialEq, Eq, Drop)]
pub struct Standing {
    pub rounds: u32,
    pub progress: Progress,
    /// Of how many cubes packs say that they are refuted or have a model.
    pub solved: usize,
    /// The parts of all rounds that have begun and not ended; some may have been killed.
    pub at_work: Vec<PartNote>,
    /// From when the run was made until its last pack came, if the times of the files tell.
    pub seconds: Option<u64>,
}

/// What is known of the formula of a run by what its packs say, or why that can't be told, which is
/// said. A pack that can't be read, is damaged or is another run's is named, and counts as missing.
pub fn progress_in<R: Files + Alloc + Clone + Drop, E: Write>(
    rt: &R,
    alloc: Global,
    folder: Folder,
    run: &RunFile,
    formula: &Formula,
    faults: &mut E,
) -> Result<Progress, Said>
    ensures { IfOk result (IsKnown formula.now) }
{
    let open = open_in(rt, alloc, folder, run, formula, faults)?;
    Ok(progress_of(open.cubes.len(), open.has_model))
}

/// When a file was written last.
fn time_of<R: Files>(rt: &R, path: &str) -> io::Result<SystemTime> {
    fs::metadata(rt, path)?.modified()
}

/// When the last of these packs came.
fn last_of<R: Files>(
    rt: &R,
    alloc: Global,
    folder: Folder,
    names: &[String],
) -> io::Result<Option<SystemTime>> {
    let mut last = None;
    for name in names {
        let time = time_of(rt, folder.pack(alloc, name.as_str())?.as_str())?;
        last = last.max(Some(time));
    }
    Ok(last)
}

/// How many seconds lie between when a run was made and when the last of these packs came.
fn seconds_until<R: Files>(
    rt: &R,
    alloc: Global,
    folder: Folder,
    names: &[String],
) -> io::Result<Option<u64>> {
    let made = time_of(rt, folder.run(alloc)?.as_str())?;
    let Some(last) = last_of(rt, alloc, folder, names)? else {
        return Ok(None);
    };
    Ok(Some(match last.duration_since(made) {
        Ok(time) => time.as_secs(),
        Err(_) => 0, // a division's pack comes before the run is made
    }))
}

/// How far a run is, or why that can't be told, which is said. It reads all packs, as `divide_again`
/// does.
pub fn standing_in<R: Files + Clock + Alloc + Clone + Drop, E: Write>(
    rt: &R,
    alloc: Global,
    folder: Folder,
    faults: &mut E,
) -> Result<Standing, Said> {
    let run = run_in(rt, alloc, folder, faults)?;
    let formula = formula_in(rt, alloc, folder, &run, faults)?;
    let names = packs_of(rt, alloc, folder, faults)?;
    let rounds = rounds_of(rt, alloc, folder, faults)?;
    let open = open_in(rt, alloc, folder, &run, &formula, faults)?;
    let Ok(at_work) = parts_at_work(rt, alloc, folder) else {
        return Err(say_no_memory(faults, folder.path));
    };
    Ok(Standing {
        rounds,
        progress: progress_of(open.cubes.len(), open.has_model),
        solved: open.solved,
        at_work,
        seconds: seconds_until(rt, alloc, folder, &names).unwrap_or(None),
    })
}
