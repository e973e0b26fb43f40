//! `solve --stats` by a known clock and a known size of the process: each line to its last byte, also of
//! runs that fail.
use crate::checks;
use cubesat::command;
use std::fs;
use std::rt::Files;
use std::sync::Wait;
use std::test::Fail;
use std::thread::Threads;
use std::time::Clock;
use test_console::clocks::{Readings, UNREAD};
use test_console::fake::Fake;
use test_console::{Paths, path_of};
use test_samples::faulty::{Limited, Limits};
use test_samples::{EIGHT, FOUR};

/// What the clock shows at a run's beginning and at the end of each stage, in milliseconds.
pub(crate) const TIMES: [u64; 6] = [5_000, 6_234, 8_284, 8_291, 69_291, UNREAD];

/// The same, and behind reading when the search has ended that says whether the formula is simplified.
pub(crate) const FOCUSED_TIMES: [u64; 7] = [5_000, 6_234, 7_000, 8_284, 8_291, 69_291, UNREAD];

/// The same, and when the formula is simplified.
const SIMPLIFIED_TIMES: [u64; 8] = [5_000, 6_234, 7_000, 7_500, 8_284, 8_291, 69_291, UNREAD];

/// At a run's beginning, when its limit of ten seconds begins, at the end of reading, before the
/// first cube and before the second.
const LIMITED: [u64; 5] = [5_000, 5_000, 6_234, 8_284, 15_000];

/// Where Linux tells of the process, with other numbers around the one of its most memory.
pub(crate) const PROCESS: &str =
    "Name:\tcubesat\nVmPeak:\t   99999 kB\nVmSize:\t   88888 kB\nVmHWM:\t    4321 kB\nVmRSS:\t    1234 kB\nThreads:\t1\n";

/// The texts of the formula's and the proof's file, a command line, what the clock shows, how many
/// bytes of the answer are taken, whether the system tells of the process, the status, the lines
/// that are printed, and with which words a fault or a refusal begins behind them.
#[derive(Clone, Copy)]
pub(crate) struct Row<'a> {
    pub(crate) formula: &'a str,
    pub(crate) proof: &'a str,
    pub(crate) words: &'a [&'a str],
    pub(crate) times: &'a [u64],
    pub(crate) room: usize,
    pub(crate) tells: bool,
    pub(crate) status: u8,
    pub(crate) lines: &'a str,
    pub(crate) fault: &'a str,
}

/// The eight clauses, with the root split. What its searches do is worked out in the tests of
/// `cubes`.
pub(crate) const SPLIT: Row = Row {
    formula: EIGHT,
    proof: "",
    words: &[
        "cubesat", "solve", "--stats", "--budget", "1", "--proof", "PROOF", "FORMULA",
    ],
    times: &TIMES,
    room: 100,
    tells: true,
    status: 20,
    lines: "c formula: 3 variables, 8 clauses, 24 literals
c hands: 1
c search: 5 conflicts, 4 decisions, 13 propagations, 0 restarts
c clauses: 2 learnt, 0 forgotten
c cubes: 3 solved, 1 split, 0 skipped
c learnt: 4 lines in refuted cubes, kept in 24 bytes
c solved by each hand: 3
c proof: 7 lines, 94 bytes
c reading: 1.234 s, peak memory 4321 KiB
c solving: 2.050 s, peak memory 4321 KiB
c joining: 0.007 s, peak memory 4321 KiB
c writing: 61.000 s, peak memory 4321 KiB
c conflicts a second: 2
",
    fault: "",
};

/// By one cube, which the search that is made first decides.
const WHOLE: Row = Row {
    words: &["cubesat", "solve", "--stats", "--proof", "PROOF", "FORMULA"],
    lines: "c formula: 3 variables, 8 clauses, 24 literals
c hands: 1
c first search: ordered, 4 conflicts, decided
c search: 4 conflicts, 3 decisions, 10 propagations, 0 restarts
c clauses: 3 learnt, 0 forgotten
c cubes: 1 solved, 0 split, 0 skipped
c learnt: 4 lines in refuted cubes, kept in 28 bytes
c solved by each hand: 1
c proof: 4 lines, 62 bytes
c reading: 1.234 s, peak memory 4321 KiB
c solving: 2.050 s, peak memory 4321 KiB
c joining: 0.007 s, peak memory 4321 KiB
c writing: 61.000 s, peak memory 4321 KiB
c conflicts a second: 1
",
    ..SPLIT
};

/// The root is split after one conflict, as `SPLIT` says of it, and the limit reached before its
/// first half is solved, which the hand leaves that is at it.
const CUT_OFF: Row = Row {
    words: &[
        "cubesat",
        "solve",
        "--stats",
        "--seconds",
        "10",
        "--budget",
        "1",
        "--proof",
        "PROOF",
        "FORMULA",
    ],
    times: &LIMITED,
    status: 0,
    lines: "c formula: 3 variables, 8 clauses, 24 literals
c hands: 1
c search: 1 conflicts, 2 decisions, 3 propagations, 0 restarts
c clauses: 0 learnt, 0 forgotten
c cubes: 1 solved, at least 1 split
c solved by each hand: 1
c proof: 0 lines, 0 bytes
c reading: 1.234 s, peak memory 4321 KiB
",
    ..SPLIT
};

/// `SPLIT` without a proof: the tree isn't kept, and no proof is joined and written.
const UNPROVED: Row = Row {
    words: &["cubesat", "solve", "--stats", "--budget", "1", "FORMULA"],
    lines: "c formula: 3 variables, 8 clauses, 24 literals
c hands: 1
c search: 5 conflicts, 4 decisions, 13 propagations, 0 restarts
c clauses: 2 learnt, 0 forgotten
c cubes: 3 solved, at least 1 split
c solved by each hand: 3
c reading: 1.234 s, peak memory 4321 KiB
c solving: 2.050 s, peak memory 4321 KiB
c conflicts a second: 2
",
    ..SPLIT
};

const ROWS: [Row; 15] = [
    SPLIT,
    WHOLE,
    Row {
        formula: FOUR,
        words: &[
            "cubesat", "solve", "--stats", "--search", "focused", "--divide", "0", "--proof",
            "PROOF", "FORMULA",
        ],
        times: &FOCUSED_TIMES,
        lines: "c formula: 2 variables, 4 clauses, 8 literals
c hands: 1
c search: 2 conflicts, 1 decisions, 4 propagations, 0 restarts
c clauses: 2 learnt, 0 forgotten
c focused search: 0 rounds, 0 changes of mode, 0 literals removed, 1 units
c cubes: 1 solved, 0 split, 0 skipped
c learnt: 3 lines in refuted cubes, kept in 18 bytes
c solved by each hand: 1
c proof: 3 lines, 37 bytes
c reading: 1.234 s, peak memory 4321 KiB
c solving: 2.050 s, peak memory 4321 KiB
c joining: 0.007 s, peak memory 4321 KiB
c writing: 61.000 s, peak memory 4321 KiB
c conflicts a second: 0
",
        ..SPLIT
    },
    // the resolvents of variable 1 are 2 and -2, of which the empty clause follows
    Row {
        formula: FOUR,
        words: &[
            "cubesat", "solve", "--stats", "--search", "focused", "--budget", "1", "--divide", "0",
            "--proof", "PROOF", "FORMULA",
        ],
        times: &SIMPLIFIED_TIMES,
        lines: "c formula: 2 variables, 4 clauses, 8 literals
c hands: 1
c simplified: 2 variables and 4 clauses become 0 and 1, 18 literals looked at, 0.500 s
c search: 2 conflicts, 1 decisions, 2 propagations, 0 restarts
c clauses: 0 learnt, 0 forgotten
c focused search: 0 rounds, 0 changes of mode, 0 literals removed, 0 units
c cubes: 1 solved, 0 split, 0 skipped
c learnt: 1 lines in refuted cubes, kept in 4 bytes
c solved by each hand: 1
c proof: 6 lines, 67 bytes
c reading: 1.234 s, peak memory 4321 KiB
c solving: 2.050 s, peak memory 4321 KiB
c joining: 0.007 s, peak memory 4321 KiB
c writing: 61.000 s, peak memory 4321 KiB
c conflicts a second: 0
",
        ..SPLIT
    },
    Row {
        room: 3,
        status: 1,
        fault: "fault 54",
        ..SPLIT
    },
    Row {
        words: &[
            "cubesat",
            "solve",
            "--stats",
            "--budget",
            "1",
            "--proof",
            "/dev/full",
            "FORMULA",
        ],
        tells: false,
        status: 1,
        lines: "c formula: 3 variables, 8 clauses, 24 literals
c hands: 1
c search: 5 conflicts, 4 decisions, 13 propagations, 0 restarts
c clauses: 2 learnt, 0 forgotten
c cubes: 3 solved, 1 split, 0 skipped
c learnt: 4 lines in refuted cubes, kept in 24 bytes
c solved by each hand: 3
c proof: 0 lines, 0 bytes
c reading: 1.234 s
c solving: 2.050 s
c joining: 0.007 s
c conflicts a second: 2
",
        fault: "fault 53",
        ..SPLIT
    },
    Row {
        formula: "p cnf 2 1\n1 3 0\n",
        status: 1,
        lines: "",
        fault: "fault 51: refusal 5 at line 2, column 3",
        ..SPLIT
    },
    Row {
        formula: "p cnf 2 1\n1 2 0\n",
        status: 10,
        tells: false,
        lines: "c formula: 2 variables, 1 clauses, 2 literals
c hands: 1
c search: 0 conflicts, 1 decisions, 2 propagations, 0 restarts
c clauses: 0 learnt, 0 forgotten
c cubes: 1 solved
c solved by each hand: 1
c proof: 0 lines, 0 bytes
c reading: 1.234 s
c solving: 2.050 s
c conflicts a second: 0
",
        ..SPLIT
    },
    CUT_OFF,
    Row {
        room: 3,
        status: 1,
        fault: "fault 54",
        ..CUT_OFF
    },
    Row {
        words: &[
            "cubesat",
            "solve",
            "--stats",
            "--seconds",
            "10",
            "--budget",
            "1",
            "FORMULA",
        ],
        lines: "c formula: 3 variables, 8 clauses, 24 literals
c hands: 1
c search: 1 conflicts, 2 decisions, 3 propagations, 0 restarts
c clauses: 0 learnt, 0 forgotten
c cubes: 1 solved, at least 1 split
c solved by each hand: 1
c reading: 1.234 s, peak memory 4321 KiB
",
        ..CUT_OFF
    },
    UNPROVED,
    Row {
        room: 3,
        status: 1,
        fault: "fault 54",
        ..UNPROVED
    },
    Row {
        formula: "p cnf 2 1\n1 3 0\n",
        status: 1,
        lines: "",
        fault: "fault 51: refusal 5 at line 2, column 3",
        ..UNPROVED
    },
    Row {
        formula: "p cnf 2 1\n1 2 0\n",
        status: 10,
        tells: false,
        lines: "c formula: 2 variables, 1 clauses, 2 literals
c hands: 1
c search: 0 conflicts, 1 decisions, 2 propagations, 0 restarts
c clauses: 0 learnt, 0 forgotten
c cubes: 1 solved
c solved by each hand: 1
c reading: 1.234 s
c solving: 2.050 s
c conflicts a second: 0
",
        ..UNPROVED
    },
];

/// Whether a row's lines are printed, and then the fault.
fn has_lines(faults: &[u8], row: &Row) -> bool {
    match faults.strip_prefix(row.lines.as_bytes()) {
        Some(rest) => {
            rest.starts_with(row.fault.as_bytes()) && rest.is_empty() == row.fault.is_empty()
        }
        None => false,
    }
}

/// Whether a row's command line prints what is wanted.
pub(crate) fn holds<R: Files + AllocGlobal + Threads + Wait + Clock + Sync>(
    rt: &R,
    paths: &Paths,
    row: &Row,
) -> Result<bool, Fail> {
    fs::write(rt, paths.formula.as_str(), row.formula)?;
    fs::write(rt, paths.proof.as_str(), row.proof)?;
    let words = paths.words(rt.alloc(), row.words)?;
    let mut answer = Limited::new(rt.alloc(), Limits::of(row.room));
    let mut faults = Vec::new(rt.alloc());
    let status = command(rt, rt.alloc(), &words, &mut answer, &mut faults);
    Ok(status == row.status && has_lines(&faults, row))
}

/// The file that tells how large the process is, or one that isn't there.
pub(crate) fn told_by<'a>(paths: &'a Paths, process: &'a str, row: &Row) -> &'a str {
    if row.tells {
        process
    } else {
        paths.missing.as_str()
    }
}

static TABLES: [&[Row]; 2] = [&ROWS, &checks::ROWS];

#[test]
fn figures_and_times(rt: HostRuntime) -> Result<(), Fail> {
    let paths = Paths::of(&rt, "timed.cnf")?;
    let process = path_of(&rt, "timed_process")?;
    fs::write(&rt, process.as_str(), PROCESS)?;
    for rows in &TABLES {
        for row in *rows {
            let clock = Readings::new(row.times);
            let fake = Fake::telling(&rt, &clock, told_by(&paths, process.as_str(), row));
            assert!(rt; holds(&fake, &paths, row)?, "{} {}", row.lines, row.fault);
        }
    }
    Ok(())
}
