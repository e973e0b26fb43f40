//! What is said, and which status comes, where an answer, a fault or a proof can't be written or
//! flushed, whatever is shown of the run; and what is left in the proof's file.
use crate::command_lines::run_words;
use cubesat::command;
use std::rt::Files;
use std::sync::Wait;
use std::test::Fail;
use std::thread::Threads;
use std::time::Clock;
use test_console::fake::{Call, Fake};
use test_console::{Known, Parts, Paths, put_texts};
use test_samples::faulty::{Full, Limited, Limits, UNFLUSHED};
use test_samples::{FOUR, FOUR_PROOF};

/// The proof's text before and behind a command line over the four clauses, what the writer of its
/// answer refuses, the status, and what is known of what is said.
#[derive(Clone, Copy)]
struct Row {
    before: &'static str,
    words: &'static [&'static str],
    limits: Limits,
    status: u8,
    faults: Known<'static>,
    after: &'static str,
}

/// Their proof by one cube.
const LEARNT: &str = "5 1 0 1 2 0\n6 0 5 3 4 0\n";

/// The first fault that is named.
const ANSWER: Known = Known::Behind("fault ", "54");

/// The lines of the fault, up to the system's words.
const LINES: Known = Known::Beginning("fault 54\nc the answer: ");

const ALL_LINES: Known = Known::All(
    "fault 54\nc the answer: other error\nc what was printed is only a beginning of it\n",
);

/// A run with a proof, which is in its place where the answer fails behind it.
const PROVED: Row = Row {
    before: "old",
    words: &["cubesat", "solve", "--proof", "PROOF", "FORMULA"],
    limits: UNFLUSHED,
    status: 1,
    faults: ANSWER,
    after: LEARNT,
};

/// A run without one.
const UNPROVED: Row = Row {
    words: &["cubesat", "solve", "FORMULA"],
    after: "old",
    ..PROVED
};

const CHECKED: Row = Row {
    before: FOUR_PROOF,
    words: &["cubesat", "check", "FORMULA", "PROOF"],
    after: FOUR_PROOF,
    ..PROVED
};

/// Room for so many bytes.
const THREE: Limits = Limits {
    room: 3,
    full: Full::Fails,
    flushes: true,
};

const FOUR_BYTES: Limits = Limits { room: 4, ..THREE };

static ANSWERS: [Row; 16] = [
    PROVED,
    Row {
        words: &["cubesat", "solve", "--stats", "--proof", "PROOF", "FORMULA"],
        ..PROVED
    },
    Row {
        words: &[
            "cubesat",
            "solve",
            "--progress",
            "--proof",
            "PROOF",
            "FORMULA",
        ],
        ..PROVED
    },
    UNPROVED,
    Row {
        words: &["cubesat", "solve", "--stats", "FORMULA"],
        ..UNPROVED
    },
    Row {
        words: &["cubesat", "solve", "--progress", "FORMULA"],
        ..UNPROVED
    },
    Row {
        words: &["cubesat", "models", "FORMULA"],
        ..UNPROVED
    },
    Row {
        words: &["cubesat", "models", "--count", "FORMULA"],
        limits: Limits { room: 1, ..THREE },
        faults: LINES,
        ..UNPROVED
    },
    CHECKED,
    Row {
        words: &["cubesat", "check", "--stats", "FORMULA", "PROOF"],
        ..CHECKED
    },
    Row {
        words: &["cubesat", "check", "--progress", "FORMULA", "PROOF"],
        ..CHECKED
    },
    Row {
        words: &[
            "cubesat", "solve", "--budget", "1", "--proof", "PROOF", "FORMULA",
        ],
        limits: THREE,
        faults: LINES,
        after: FOUR_PROOF,
        ..PROVED
    },
    Row {
        limits: THREE,
        faults: LINES,
        ..CHECKED
    },
    Row {
        words: &["cubesat", "check", "--distinct-status", "FORMULA", "PROOF"],
        limits: THREE,
        status: 2,
        faults: LINES,
        ..CHECKED
    },
    Row {
        limits: FOUR_BYTES,
        faults: ALL_LINES,
        ..PROVED
    },
    Row {
        before: LEARNT,
        limits: FOUR_BYTES,
        faults: ALL_LINES,
        after: LEARNT,
        ..CHECKED
    },
];

/// Whether a row's command line fails as it is wanted, once a part of its answer was taken, and
/// leaves the proof's file as it is wanted, without a part.
fn fails<R: Files + AllocGlobal + Threads + Wait + Clock + Sync>(
    rt: &R,
    parts: &Parts,
    row: &Row,
) -> Result<bool, Fail> {
    put_texts(rt, &parts.paths, FOUR.as_bytes(), row.before.as_bytes())?;
    let words = parts.paths.words(rt.alloc(), row.words)?;
    let mut answer = Limited::new(rt.alloc(), row.limits);
    let mut faults = Vec::new(rt.alloc());
    let status = command(rt, rt.alloc(), &words, &mut answer, &mut faults);
    let is_said = status == row.status && row.faults.is_of(&faults);
    Ok(is_said && !answer.taken.is_empty() && parts.has(rt, row.after))
}

#[test]
fn answers(rt: HostRuntime) -> Result<(), Fail> {
    let parts = Parts::of(&rt, "unwritten_answer.cnf", FOUR)?;
    for row in &ANSWERS {
        assert!(rt; fails(&rt, &parts, row)?, "{:?}", row.words);
    }
    Ok(())
}

/// Command lines that have a fault.
static FAULTY: [&[&str]; 4] = [
    &["cubesat", "check", "MISSING", "MISSING"],
    &["cubesat", "solve", "--proof", "MISSING", "MISSING"],
    &["cubesat", "explain", "99"],
    &["cubesat"],
];

/// Whether a command line whose fault can't be printed has the status of a fault, and prints
/// nothing else.
fn is_silent<R: Files + AllocGlobal + Threads + Wait + Clock + Sync>(
    rt: &R,
    paths: &Paths,
    words: &[&str],
) -> Result<bool, Fail> {
    let words = paths.words(rt.alloc(), words)?;
    let mut answer = Vec::new(rt.alloc());
    let mut faults = Limited::new(rt.alloc(), Limits::of(0));
    let status = command(rt, rt.alloc(), &words, &mut answer, &mut faults);
    Ok(status == 1 && answer.is_empty() && faults.refusals > 0)
}

#[test]
fn faults(rt: HostRuntime) -> Result<(), Fail> {
    let paths = Paths::of(&rt, "unwritten_fault.cnf")?;
    for words in &FAULTY {
        assert!(rt; is_silent(&rt, &paths, words)?, "{words:?}");
    }
    Ok(())
}

/// Runs that go through each of the writers.
static PROVING: [&[&str]; 3] = [
    &["cubesat", "solve", "--proof", "PROOF", "FORMULA"],
    &["cubesat", "solve", "--stats", "--proof", "PROOF", "FORMULA"],
    &[
        "cubesat",
        "solve",
        "--progress",
        "--proof",
        "PROOF",
        "FORMULA",
    ],
];

/// Whether a command line has the fault of a proof that can't be flushed, and answers nothing, on a
/// system whose files can't be.
fn flushes<R: Files + AllocGlobal + Threads + Wait + Clock + Sync>(
    rt: &R,
    paths: &Paths,
    words: &[&str],
) -> Result<bool, Fail> {
    put_texts(rt, paths, FOUR.as_bytes(), FOUR_PROOF.as_bytes())?;
    let printed = run_words(rt, paths, words)?;
    let is_named = Known::Behind("fault ", "53").is_of(&printed.faults);
    Ok(printed.status == 1 && printed.answer.is_empty() && is_named)
}

#[test]
fn proofs(rt: HostRuntime) -> Result<(), Fail> {
    let paths = Paths::of(&rt, "unwritten_proof.cnf")?;
    let fake = Fake::refusing(&rt, &rt, Call::Flush);
    for words in &PROVING {
        assert!(rt; flushes(&fake, &paths, words)?, "{words:?}");
    }
    Ok(())
}
