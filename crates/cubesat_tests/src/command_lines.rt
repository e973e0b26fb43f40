//! What a command line prints.
use cubesat::command;
use std::rt::Files;
use std::sync::Wait;
use std::test::Fail;
use std::thread::Threads;
use std::time::Clock;
use test_console::{Paths, Printed, Wanted};

/// What a command line prints.
pub fn run<R: Files + AllocGlobal + Threads + Wait + Clock + Sync>(
    rt: &R,
    words: &[&str],
) -> Printed {
    let mut answer = Vec::new(rt.alloc());
    let mut faults = Vec::new(rt.alloc());
    let status = command(rt, rt.alloc(), words, &mut answer, &mut faults);
    Printed {
        status,
        answer,
        faults,
    }
}

/// What the command line prints that the words of a row stand for.
pub fn run_words<R: Files + AllocGlobal + Threads + Wait + Clock + Sync>(
    rt: &R,
    paths: &Paths,
    words: &[&str],
) -> Result<Printed, Fail> {
    let words = paths.words(rt.alloc(), words)?;
    Ok(run(rt, &words))
}

/// What is printed where a formula is refuted.
pub const REFUTED: Wanted = Wanted {
    status: 20,
    answer: "s UNSATISFIABLE\n",
    faults: "",
};
