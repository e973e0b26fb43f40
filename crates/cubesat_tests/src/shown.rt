//! Where what is shown of a run can't be printed, all else stays as it is.
use cubesat::{Screen, command_on};
use std::fs;
use std::rt::Files;
use std::sync::Wait;
use std::test::Fail;
use std::thread::Threads;
use std::time::Clock;
use test_console::{Paths, put_texts};
use test_samples::EIGHT;
use test_samples::faulty::{Limited, Limits};

/// The proof of the eight clauses at budgets that exhaust the root.
const SPLIT: &str =
    "9 2 1 0 1 2 0\n10 1 0 9 3 4 0\n10 d 9 0\n11 2 -1 0 5 6 0\n12 -1 0 11 7 8 0\n12 d 11 0\n13 0 10 12 0\n";

static WITH_ALL: [&str; 10] = [
    "cubesat",
    "solve",
    "--stats",
    "--progress",
    "--verbose",
    "--budget",
    "1",
    "--proof",
    "PROOF",
    "FORMULA",
];

/// Whether a run with all three options, whose lines go to this writer, answers and writes the
/// proof as ever.
fn is_as_ever<R: Files + AllocGlobal + Threads + Wait + Clock + Sync>(
    rt: &R,
    paths: &Paths,
    faults: &mut Limited,
    screen: Screen,
) -> Result<bool, Fail> {
    let words = paths.words(rt.alloc(), &WITH_ALL)?;
    let mut answer = Vec::new(rt.alloc());
    let status = command_on(rt, rt.alloc(), &words, &mut answer, faults, screen);
    let proof = fs::read(rt, paths.proof.as_str())?;
    Ok(
        status == 20
            && answer.as_slice() == b"s UNSATISFIABLE\n".as_slice()
            && proof.as_slice() == SPLIT.as_bytes(),
    )
}

/// Whether a run is as ever whose lines go to a writer with so much room, which refuses some.
fn is_as_ever_beside<R: Files + AllocGlobal + Threads + Wait + Clock + Sync>(
    rt: &R,
    paths: &Paths,
    room: usize,
    screen: Screen,
) -> Result<bool, Fail> {
    put_texts(rt, paths, EIGHT.as_bytes(), b"old")?;
    let mut faults = Limited::new(rt.alloc(), Limits::of(room));
    let is_right = is_as_ever(rt, paths, &mut faults, screen)?;
    Ok(is_right && faults.refusals > 0)
}

#[test]
fn a_writer_that_fails_changes_nothing_else(rt: HostRuntime) -> Result<(), Fail> {
    let paths = Paths::of(&rt, "beside.cnf")?;
    for room in [0, 1, 20, 100, 300] {
        for screen in [Screen::Stream, Screen::Terminal] {
            assert!(rt;
                is_as_ever_beside(&rt, &paths, room, screen)?,
                "room {room}"
            );
        }
    }
    Ok(())
}
