//! How far a run is that is spread over machines, as it is printed.
ghost use Rattle.std.specs.Prelude.{◌≡◌, ◌⊎◌, MatchResult};

use commands::FAILED;
use messages::say_not_printed;
use spread::{Folder, PartNote, Progress, Said, Standing, standing_in};
use std::alloc::Global;
use std::fs::Files;
use std::io;
use std::io::Write;
use std::time::Clock;

/// The status of a command that did what it is to do for a run, and where a part is solved. What packs
/// say of its formula is no verdict.
pub(crate) const DONE: u8 = 0;

/// The status of a command whose answer is printed, unless that failed.
pub(crate) fn status_printed<E: Write>(faults: &mut E, written: io::Result<()>, status: u8) -> u8
    ensures { MatchResult written (λ _. result ≡ status) (λ _. result ≡ 1) }
{
    match written {
        Ok(()) => status,
        Err(error) => {
            say_not_printed(faults, error);
            FAILED
        }
    }
}

/// How many cubes are open.
pub(crate) fn open_of(progress: Progress) -> usize {
    match progress {
        Progress::Open(count) => count,
        Progress::Satisfiable | Progress::Unsatisfiable => 0,
    }
}

/// Says what packs claim of a run of which no cube is open, and which command checks that.
fn say_claim<E: Write>(faults: &mut E, progress: Progress, run: &str) {
    let claim = match progress {
        Progress::Open(_) => return,
        Progress::Satisfiable =>
            "a pack claims a model, and every cube before it is refuted by a pack",
        Progress::Unsatisfiable => "every cube is refuted by a pack",
    };
    let _ = writeln!(faults, "c {claim}: cubesat gather --proof PATH {run}");
}

/// Prints how many cubes of a run are open; the status.
pub(crate) fn print_progress<W: Write, E: Write>(
    answer: &mut W,
    faults: &mut E,
    run: &str,
    progress: Result<Progress, Said>,
) -> u8
    ensures { (result ≡ 0) ⊎ (result ≡ 1) }
{
    let Ok(progress) = progress else {
        return FAILED;
    };
    let open = open_of(progress);
    let written = writeln!(answer, "{open}");
    say_claim(faults, progress, run);
    status_printed(faults, written, DONE)
}

/// Writes the name of a part that is at work, and how old its last word is.
fn write_part<W: Write>(answer: &mut W, part: &PartNote) -> io::Result<()> {
    let name = part.name.as_str();
    match part.age {
        Some(age) => writeln!(answer, "part {name} {age}"),
        None => writeln!(answer, "part {name}"),
    }
}

/// Writes how many parts are at work, and a line of each.
fn write_parts<W: Write>(answer: &mut W, parts: &[PartNote]) -> io::Result<()> {
    let count = parts.len();
    writeln!(answer, "parts {count}")?;
    for part in parts {
        write_part(answer, part)?;
    }
    Ok(())
}

/// Writes how far a run is, a number a line.
fn write_standing<W: Write>(answer: &mut W, standing: &Standing) -> io::Result<()> {
    let (rounds, solved) = (standing.rounds, standing.solved);
    let open = open_of(standing.progress);
    write!(answer, "rounds {rounds}\nopen {open}\nsolved {solved}\n")?;
    write_parts(answer, &standing.at_work)?;
    match standing.seconds {
        Some(seconds) => writeln!(answer, "seconds {seconds}"),
        None => Ok(()),
    }
}

/// Prints how far a run is, with its numbers; the status.
pub(crate) fn print_standing<R: Files + Clock + Alloc + Clone + Drop, W: Write, E: Write>(
    rt: &R,
    alloc: Global,
    folder: Folder<'_>,
    answer: &mut W,
    faults: &mut E,
) -> u8 {
    let Ok(standing) = standing_in(rt, alloc, folder, faults) else {
        return FAILED;
    };
    let written = write_standing(answer, &standing);
    say_claim(faults, standing.progress, folder.path);
    status_printed(faults, written, DONE)
}
