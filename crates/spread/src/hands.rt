//! The hands of a part, each in a thread of its own where one can be started.
ghost use Rattle.std.specs.Prelude.{◌≡◌, ◌↔◌, All, IsOk};

use crate::conquering::{Ended, go_on};
use crate::folder::Folder;
use crate::run_file::RunFile;
use crate::said::{Said, say_no_memory};
use crate::way::{Waiting, Way};
use cnf::Formula;
use cubes::{Gate, HandCount, Watched};
use std::alloc::Global;
use std::fs::Files;
use std::io::Write;
use std::thread;
use std::thread::Threads;
use std::time::Clock;

/// How a hand ended, and what it said.
#[derive(Drop)]
struct HandEnd {
    ended: Result<Ended, Said>,
    said: Vec<u8>,
}

/// Solves what waits until nothing does, as one hand does.
fn conquer_alone<R: Files + Clock + Alloc + Clone + Drop, G: Gate>(
    rt: &R,
    alloc: Global,
    folder: Folder,
    run: &RunFile,
    formula: &Formula,
    waiting: &Waiting,
    seconds: Option<u32>,
    gate: &G,
    hand: usize,
) -> HandEnd {
    let mut said = Vec::new(alloc);
    let mut way = Way::of(alloc, waiting);
    let watched = Watched { gate, hand };
    let ended = go_on(
        rt, alloc, folder, run, formula, &mut way, seconds, &watched, &mut said,
    );
    HandEnd { ended, said }
}

/// How two hands ended, taken together.
fn end_of_both(all: Result<Ended, Said>, ended: Result<Ended, Said>) -> Result<Ended, Said>
    ensures ok { IsOk result ↔ (IsOk all × IsOk ended) }
    ensures done { result ≡ Ok Ended.Done ↔ ((all ≡ Ok Ended.Done) × (ended ≡ Ok Ended.Done)) }
{
    match (all, ended) {
        (Ok(Ended::Done), ended) => ended,
        (Ok(Ended::OutOfTime), Err(Said)) => Err(Said),
        _ => all,
    }
}

/// How all hands ended. What they said is printed.
fn end_of<E: Write>(ends: &[HandEnd], faults: &mut E) -> Result<Ended, Said>
    ensures ok { IsOk result ↔ All (λ end. IsOk end.ended) ends.now }
    ensures done { result ≡ Ok Ended.Done ↔ All (λ end. end.ended ≡ Ok Ended.Done) ends.now }
{
    let mut all = Ok(Ended::Done);
    for end in ends {
        let _ = faults.write_all(&end.said);
        all = end_of_both(all, end.ended);
    }
    all
}

/// Lets so many hands solve what waits, each with a solver of its own. Each takes whole cubes, and
/// writes what it found. What one says is printed once all are home.
pub(crate) fn conquer_by_hands<
    R: Files + Clock + Threads + Sync + Alloc + Clone + Drop,
    E: Write,
    G: Gate + Sync,
>(
    rt: &R,
    alloc: Global,
    folder: Folder,
    run: &RunFile,
    formula: &Formula,
    waiting: &Waiting,
    seconds: Option<u32>,
    hands: HandCount,
    gate: &G,
    faults: &mut E,
) -> Result<Ended, Said>
where
    R::File: Send,
    R::Dir: Send,
    R::A: Send,
{
    let ends = thread::map_indices(
        rt,
        alloc,
        hands.get(),
        &|hand| {
            conquer_alone(
                rt, alloc, folder, run, formula, waiting, seconds, gate, hand,
            )
        },
    );
    match ends {
        Ok(ends) => end_of(&ends, faults),
        Err(_) => Err(say_no_memory(faults, folder.path)),
    }
}
