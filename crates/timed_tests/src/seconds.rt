//! `--seconds`: a run by a clock that jumps ends where the limit is reached, and nowhere else.
use cubesat::command;
use std::alloc::{AllocError, Global};
use std::fmt::Write;
use std::rt::Files;
use std::sync::Wait;
use std::test::Fail;
use std::thread::Threads;
use std::time::Clock;
use test_console::clocks::{Readings, UNREAD};
use test_console::fake::Fake;
use test_console::{Parts, put_texts};
use test_samples::faulty::{Full, Limited, Limits, ROOMY, UNFLUSHED};
use test_samples::{FOUR, FOUR_PROOF};

/// A formula, or all clauses over twelve variables, a command line but for its hands, what the clock shows in milliseconds, what the
/// writer of the answer refuses, the status, the answer, and the text of the proof's file behind a
/// run, where an old one was.
#[derive(Clone, Copy)]
struct Row<'a> {
    formula: Option<&'a str>,
    words: &'a [&'a str],
    clock: &'a [u64],
    limits: Limits,
    status: u8,
    answer: &'a str,
    proof: &'a str,
}

/// The clock is read as the run begins, as the files are open, as the formula is read, and before
/// each cube: the root, and its halves; by several hands as each cube begins and ends too. The limit
/// is reached before the first of these.
const ENDED: Row = Row {
    formula: Some(FOUR),
    words: &[
        "cubesat",
        "solve",
        "--seconds",
        "10",
        "--budget",
        "1",
        "--proof",
        "PROOF",
        "FORMULA",
    ],
    clock: &[5_000, 5_000, 5_000, 15_000],
    limits: ROOMY,
    status: 0,
    answer: "s UNKNOWN\n",
    proof: "old",
};

/// It isn't reached.
const DECIDED: Row = Row {
    clock: &[5_000, 5_000, 5_000, 14_999],
    status: 20,
    answer: "s UNSATISFIABLE\n",
    proof: FOUR_PROOF,
    ..ENDED
};

/// Without a limit.
const UNLIMITED: Row = Row {
    words: &[
        "cubesat", "solve", "--budget", "1", "--proof", "PROOF", "FORMULA",
    ],
    ..DECIDED
};

/// A formula with a model.
const ONE_CLAUSE: &str = "p cnf 2 1\n1 2 0\n";

/// With the longest limit.
const LONGEST: [&str; 9] = [
    "cubesat",
    "solve",
    "--seconds",
    "1000000000",
    "--budget",
    "1",
    "--proof",
    "PROOF",
    "FORMULA",
];

/// A run that is ended, whose answer a writer refuses.
const REFUSED: Row = Row {
    limits: UNFLUSHED,
    status: 1,
    ..ENDED
};

/// By one cube, inside which the limit is reached.
const ONE_CUBE: Row = Row {
    formula: None,
    words: &[
        "cubesat",
        "solve",
        "--seconds",
        "10",
        "--budget",
        "100000",
        "--proof",
        "PROOF",
        "FORMULA",
    ],
    clock: &[5_000, 5_000, 5_000, 14_999, 15_000],
    ..ENDED
};

/// By the automatic search, without a proof. The limit is reached before the search that is made
/// first.
const AUTOMATIC: Row = Row {
    words: &["cubesat", "solve", "FORMULA", "--seconds", "10"],
    clock: &[5_000, 15_000],
    ..ENDED
};

static ROWS: [Row; 26] = [
    ENDED,
    Row {
        clock: &[5_000, 5_000, 5_000, 14_999, 15_000],
        ..ENDED
    },
    Row {
        clock: &[5_000, 5_000, 5_000, 5_000, 5_000, 4_000_000_000_000],
        ..ENDED
    },
    Row {
        formula: Some(ONE_CLAUSE),
        ..ENDED
    },
    Row {
        words: &[
            "cubesat",
            "solve",
            "--seconds",
            "10",
            "--search",
            "focused",
            "--budget",
            "1",
            "--proof",
            "PROOF",
            "FORMULA",
        ],
        clock: &[5_000, 5_000, 5_000, 14_999, 15_000],
        ..ENDED
    },
    // no proof is asked for: it is read as the run begins, and before each cube
    Row {
        words: &[
            "cubesat",
            "solve",
            "FORMULA",
            "--search",
            "ordered",
            "--seconds",
            "10",
        ],
        clock: &[5_000, 15_000],
        ..ENDED
    },
    Row {
        words: &[
            "cubesat",
            "solve",
            "--search",
            "ordered",
            "--seconds",
            "1",
            "FORMULA",
        ],
        clock: &[5_000, 6_000],
        ..ENDED
    },
    AUTOMATIC,
    Row {
        clock: &[5_000, 14_999],
        status: 20,
        answer: "s UNSATISFIABLE\n",
        ..AUTOMATIC
    },
    // so it is where any model will do
    Row {
        words: &[
            "cubesat",
            "solve",
            "--seconds",
            "10",
            "--any-model",
            "FORMULA",
        ],
        clock: &[5_000, 15_000],
        ..ENDED
    },
    Row {
        words: &LONGEST,
        clock: &[0, 0, 0, 1_000_000_000_000],
        ..ENDED
    },
    DECIDED,
    // it is reached once all is solved, without a proof, and with one by several hands
    Row {
        words: &[
            "cubesat",
            "solve",
            "--seconds",
            "10",
            "--budget",
            "1",
            "FORMULA",
        ],
        clock: &[5_000, 14_999, 14_999, 14_999, 15_000],
        proof: "old",
        ..DECIDED
    },
    Row {
        clock: &[
            5_000, 5_000, 5_000, 14_999, 14_999, 14_999, 14_999, 14_999, 14_999, 14_999, 14_999,
            14_999, 15_000,
        ],
        ..DECIDED
    },
    Row {
        formula: Some(ONE_CLAUSE),
        status: 10,
        answer: "s SATISFIABLE\nv -1 2 0\n",
        proof: "",
        ..DECIDED
    },
    // the clock can't be read: never, at the beginning, and from then on
    Row {
        clock: &[],
        ..DECIDED
    },
    Row {
        clock: &[UNREAD, UNREAD, 50_000],
        ..DECIDED
    },
    Row {
        clock: &[5_000, 5_000, 5_000, UNREAD],
        ..DECIDED
    },
    // it goes back
    Row {
        clock: &[50_000, 50_000, 50_000, 5_000],
        ..DECIDED
    },
    Row {
        clock: &[0, 4_000_000_000_000],
        ..UNLIMITED
    },
    Row {
        words: &LONGEST,
        clock: &[0, 0, 0, 999_999_999_999],
        ..DECIDED
    },
    REFUSED,
    Row {
        limits: Limits {
            room: 0,
            full: Full::Fails,
            flushes: true,
        },
        ..REFUSED
    },
    Row {
        limits: Limits {
            room: 3,
            full: Full::Fails,
            flushes: true,
        },
        ..REFUSED
    },
    Row {
        limits: Limits {
            room: 9,
            full: Full::TakesNothing,
            flushes: true,
        },
        ..REFUSED
    },
    ONE_CUBE,
];

/// Writes the clause over twelve variables whose signs are the binary digits of a number.
fn write_clause(text: &mut String, signs: u32) -> Result<(), AllocError> {
    let mut left = signs;
    for var in 1..=12u32 {
        let sign = if left % 2 == 0 { "" } else { "-" };
        write!(text, "{sign}{var} ")?;
        left /= 2;
    }
    write!(text, "0\n")
}

/// All clauses over twelve variables. A clause is false under one of the 4096 assignments alone,
/// and a conflict rules out two of these: the ordered search has 2048.
fn all_clauses(alloc: Global) -> Result<String, AllocError> {
    let mut text = String::from_str(alloc, "p cnf 12 4096\n")?;
    for signs in 0..4096u32 {
        write_clause(&mut text, signs)?;
    }
    Ok(text)
}

/// Puts a row's formula, and an old proof, into the files.
fn put<R: Files + AllocGlobal>(rt: &R, parts: &Parts, row: &Row) -> Result<(), Fail> {
    match row.formula {
        Some(text) => put_texts(rt, &parts.paths, text.as_bytes(), b"old"),
        None => {
            let text = all_clauses(rt.alloc())?;
            put_texts(rt, &parts.paths, text.as_bytes(), b"old")
        }
    }
}

/// Whether a row's answer and nothing else was printed, or of one that is refused, a beginning of
/// it, and the fault.
fn is_printed(row: &Row, answer: &[u8], faults: &[u8]) -> bool {
    if row.status == 1 {
        return row.answer.as_bytes().starts_with(answer)
            && faults.starts_with(b"fault 54\nc the answer: ");
    }
    answer == row.answer.as_bytes() && faults.is_empty()
}

/// Whether a row's command line, by so many hands, prints what is wanted, and leaves the proof's
/// file as it is wanted, without a part.
fn holds<R: Files + AllocGlobal + Threads + Wait + Clock + Sync>(
    rt: &R,
    parts: &Parts,
    row: &Row,
    hands: &str,
) -> Result<bool, Fail> {
    put(rt, parts, row)?;
    let words = parts.paths.words_by(rt.alloc(), row.words, hands)?;
    let mut answer = Limited::new(rt.alloc(), row.limits);
    let mut faults = Vec::new(rt.alloc());
    let status = command(rt, rt.alloc(), &words, &mut answer, &mut faults);
    let is_printed = is_printed(row, &answer.taken, &faults);
    Ok(status == row.status && is_printed && parts.has(rt, row.proof))
}

static HANDS: [&str; 3] = ["1", "2", "8"];

#[test]
fn limits_of_time(rt: HostRuntime) -> Result<(), Fail> {
    let parts = Parts::of(&rt, "seconds.cnf", FOUR)?;
    for row in &ROWS {
        for hands in &HANDS {
            let clock = Readings::new(row.clock);
            let fake = Fake::by(&rt, &clock);
            let is_right = holds(&fake, &parts, row, hands)?;
            assert!(rt; is_right, "{hands} {:?} {:?}", row.words, row.clock);
        }
    }
    Ok(())
}
