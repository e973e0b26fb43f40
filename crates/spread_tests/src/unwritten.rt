//! What is said where a run's files, or what a command prints, can't be written.
use crate::rows::{Row, begin, first_other};
use cubesat::{Console, NoLocks, Screen, command_in_folders};
use std::fs;
use std::fs::Files;
use std::io::empty;
use std::sync::Wait;
use std::test::Fail;
use std::thread::Threads;
use std::time::Clock;
use test_console::fake::{Call, Fake};
use test_samples::FOUR;
use test_samples::faulty::{Limited, Limits};

const RUN: &str = "spread_unwritten";

const FORMULA: &str = "spread_unwritten.cnf";

const PROOF: &str = "spread_unwritten.lrat";

/// Two cubes are open.
const MADE: Row = Row {
    words: &[
        "cubesat", "divide", "--into", RUN, "--budget", "1", "--divide", "2", FORMULA,
    ],
    status: 0,
    answer: "2\n",
    faults: "",
};

/// A file can't be written.
const UNMADE: Row = Row {
    status: 1,
    answer: "",
    faults: "cubesat: spread_unwritten: ",
    ..MADE
};

const UNSOLVED: Row = Row {
    words: &["cubesat", "conquer", "--round", "1", "--part", "1/1", RUN],
    ..UNMADE
};

const UNGATHERED: Row = Row {
    words: &["cubesat", "gather", "--solve", "--proof", PROOF, RUN],
    faults: "fault 53\nc spread_unwritten.lrat: no permission to write it\nc the proof isn't whole; make room for all of it, or name another place\n",
    ..UNMADE
};

/// Command lines, whether there is a run before them, and the call of the system that is refused.
static REFUSED: [(Row, bool, Call); 11] = [
    (UNMADE, false, Call::Write),
    (UNMADE, false, Call::Sync),
    (UNMADE, false, Call::Rename),
    (UNSOLVED, true, Call::Write),
    (UNSOLVED, true, Call::Sync),
    (UNSOLVED, true, Call::Rename),
    (
        Row {
            words: &[
                "cubesat", "conquer", "--round", "1", "--part", "1/1", "--hands", "2", RUN,
            ],
            ..UNSOLVED
        },
        true,
        Call::Sync,
    ),
    (
        Row {
            faults: "cubesat: spread_unwritten: not enough memory; free some and try again\n",
            ..UNSOLVED
        },
        true,
        Call::RenameForMemory,
    ),
    // another part puts the same pack there
    (
        Row {
            status: 0,
            faults: "",
            ..UNSOLVED
        },
        true,
        Call::RenameAsBusy,
    ),
    (UNGATHERED, true, Call::Sync),
    (UNGATHERED, true, Call::Rename),
];

/// Nothing that was solved is there: both cubes are open.
const NOT_SOLVED: Row = Row {
    words: &["cubesat", "divide", "--into", RUN],
    ..MADE
};

#[test]
fn files_that_are_not_written_are_said(rt: HostRuntime) -> Result<(), Fail> {
    for (row, is_made, call) in &REFUSED {
        begin(&rt, RUN, FORMULA, FOUR)?;
        if *is_made {
            assert!(rt; first_other(&rt, &[MADE]).is_none());
        }
        let fake = Fake::refusing(&rt, &rt, *call);
        assert!(rt;
            first_other(&fake, &[*row]).is_none(),
            "{call:?} {:?}",
            row.words
        );
        if *is_made {
            assert!(rt; first_other(&rt, &[NOT_SOLVED]).is_none());
        } else {
            assert!(rt; !fs::exists(&rt, "spread_unwritten/run")?);
        }
    }
    Ok(())
}

/// Whether a command line whose answer goes to a writer that fails has status 1, and says so.
fn is_refused<R: Files + AllocGlobal + Threads + Wait + Clock + Sync + Clone + Drop>(
    rt: &R,
    words: &[&str],
    said: &str,
) -> bool
where
    R::File: Send,
    R::Dir: Send,
{
    let mut console = Console {
        input: empty(),
        answer: Limited::new(rt.alloc(), Limits::of(0)),
        faults: Vec::new(rt.alloc()),
        screen: Screen::Stream,
    };
    let status = command_in_folders(rt, rt.alloc(), words, &mut console, &NoLocks);
    status == 1 && console.faults.starts_with(said.as_bytes())
}

/// Command lines, and what is said where they can't print.
static UNPRINTED: [(&[&str], &str); 4] = [
    (
        &[
            "cubesat",
            "divide",
            "--into",
            "spread_unprinted",
            "--budget",
            "1",
            "--divide",
            "2",
            FORMULA,
        ],
        "cubesat: standard output: other error\n",
    ),
    (
        &["cubesat", "divide", "--into", "spread_unprinted"],
        "cubesat: standard output: other error\n",
    ),
    (
        &["cubesat", "status", "spread_unprinted"],
        "cubesat: standard output: other error\n",
    ),
    (
        &[
            "cubesat",
            "gather",
            "--solve",
            "--proof",
            PROOF,
            "spread_unprinted",
        ],
        "fault 54\nc the answer: other error\nc what was printed is only a beginning of it\n",
    ),
];

#[test]
fn answers_that_are_not_printed_are_said(rt: HostRuntime) -> Result<(), Fail> {
    begin(&rt, "spread_unprinted", FORMULA, FOUR)?;
    for (words, said) in &UNPRINTED {
        assert!(rt; is_refused(&rt, *words, said), "{words:?}");
    }
    Ok(())
}
