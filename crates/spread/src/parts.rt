//! Solving the parts of a round.
ghost use Rattle.std.specs.Prelude.{◌≡◌, ℕ, ◌+◌, ◌-◌, ◌*◌, ◌^◌, ◌≤◌, [], ◌∷◌, ◌++◌, if◌then◌else◌, IfOk, OnOk, Some, None, MatchOption, min, reverse};
ghost use Rattle.spread.specs.Parts.{part_at, of_part};

use crate::begun::begun_for;
use crate::conquering::Ended;
use crate::folder::Folder;
use crate::hands::conquer_by_hands;
use crate::heartbeat::Heartbeat;
use crate::left_open::left_open;
use crate::notes::{note_at_work, note_ended};
use crate::open_cubes::OpenCubes;
use crate::round_file::read_round;
use crate::run_file::{RunFile, formula_in, run_in};
use crate::said::{Said, say_no_memory};
use crate::slice::Slice;
use crate::way::Waiting;
use cnf::Formula;
use cubes::{Gate, HandCount};
use kernel::Cube;
use std::alloc::{AllocError, Global};
use std::fs::Files;
use std::io::Write;
use std::thread::Threads;
use std::time::Clock;

/// Puts a cube behind others, if it is one of them.
fn put_if(way: &mut Vec<Cube>, cube: Cube, is_one: bool) -> Result<(), AllocError>
    ensures { OnOk result (way.new.items ≡ (if is_one then way.old.items ++ cube ∷ [] else way.old.items)) }
{
    if is_one {
        way.push(cube)?;
    }
    Ok(())
}

/// The part that the next cube belongs to. Behind the last part comes the first.
fn next_part(part: u32, parts: u32) -> u32
    ensures { (number : ℕ) → 1 ≤ parts → part ≡ part_at parts number → result ≡ part_at parts (number + 1) }
{
    if part < parts { part + 1 } else { 1 }
}

/// The cubes of a part, the last one first.
fn part_of(alloc: Global, cubes: Vec<Cube>, slice: Slice) -> Result<Vec<Cube>, AllocError>
    ensures { IfOk result (λ way. way.items ≡ reverse (of_part slice.number slice.parts 0 cubes.items)) }
{
    let number = slice.number();
    let parts = slice.parts();
    let mut way = Vec::new(alloc);
    let mut part = 1;
    'cubes: for cube in cubes {
        put_if(&mut way, cube, part == number)?;
        part = next_part(part, parts);
    }
    way.reverse();
    Ok(way)
}

/// What the packs leave open of a part of a round, from left to right, or why that can't be told,
/// which is said.
fn left_of_part<R: Files + Alloc + Clone + Drop, E: Write>(
    rt: &R,
    alloc: Global,
    folder: Folder,
    run: &RunFile,
    formula: &Formula,
    round: u32,
    slice: Slice,
    faults: &mut E,
) -> Result<Vec<Cube>, Said> {
    let cubes = read_round(rt, alloc, folder, round, formula, faults)?;
    let Ok(part) = part_of(alloc, cubes, slice) else {
        return Err(say_no_memory(faults, folder.path));
    };
    let OpenCubes { cubes, .. } = left_open(rt, alloc, folder, run, formula, part, faults)?;
    Ok(cubes)
}

/// How many seconds so many minutes have, or the most that there can be.
fn seconds_of(minutes: Option<u32>) -> Option<u32>
    ensures { MatchOption minutes (result ≡ None) (λ m. result ≡ Some (min (60 * m) (2 ^ 32 - 1))) }
{
    minutes.map(|minutes| minutes.saturating_mul(60))
}

/// Solves a part of a round, as `conquer` does.
fn solve_part<R: Files + Clock + Threads + Sync + Alloc + Clone + Drop, E: Write, G: Gate + Sync>(
    rt: &R,
    alloc: Global,
    folder: Folder,
    round: u32,
    slice: Slice,
    minutes: Option<u32>,
    hands: HandCount,
    gate: &G,
    faults: &mut E,
) -> Result<Ended, Said>
where
    R::File: Send,
    R::Dir: Send,
    R::A: Send,
{
    let run = run_in(rt, alloc, folder, faults)?;
    let formula = formula_in(rt, alloc, folder, &run, faults)?;
    let cubes = left_of_part(rt, alloc, folder, &run, &formula, round, slice, faults)?;
    let begun = begun_for(alloc, folder.path, &formula, run.plan, gate, faults)?;
    let searched = begun.formula(&formula);
    let waiting = Waiting::of(cubes);
    let seconds = seconds_of(minutes);
    conquer_by_hands(
        rt, alloc, folder, &run, searched, &waiting, seconds, hands, gate, faults,
    )
}

/// Solves what the packs of a run leave open of a part of a round, with what splits leave, by so
/// many hands, and writes what was found; after so many minutes the cubes that are left stay open.
/// Hands take the cubes from left to right. It ends at a model, and where one is known left of the
/// next cube, since the cubes that wait lie right of it. It can be stopped at any moment, and
/// started twice: it goes on from what was written. It reads all packs once, at its beginning.
/// While it is at work, a note in the run's folder says so, which is written anew about each minute,
/// and the gate is told of each cube.
pub fn conquer<R: Files + Clock + Threads + Sync + Alloc + Clone + Drop, E: Write, G: Gate + Sync>(
    rt: &R,
    alloc: Global,
    folder: Folder,
    round: u32,
    slice: Slice,
    minutes: Option<u32>,
    hands: HandCount,
    gate: &G,
    faults: &mut E,
) -> Result<Ended, Said>
where
    R::File: Send,
    R::Dir: Send,
    R::A: Send,
{
    note_at_work(rt, alloc, folder, round, slice);
    let heartbeat = Heartbeat::of(rt, alloc, folder, round, slice, gate);
    let ended = solve_part(
        rt, alloc, folder, round, slice, minutes, hands, &heartbeat, faults,
    );
    note_ended(rt, alloc, folder, round, slice);
    ended
}
