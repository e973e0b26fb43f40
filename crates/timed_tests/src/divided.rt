//! `--stats` of runs that divide a formula, by a clock that a test sets. What the looks do is worked
//! out in the tests of `cubes`, and what the searches do is from a program of its own.
use crate::timed::{PROCESS, Row, SPLIT, holds, told_by};
use std::fs;
use std::test::Fail;
use test_console::clocks::{Readings, UNREAD};
use test_console::fake::Fake;
use test_console::{Paths, path_of};
use test_samples::{EIGHT, FOUR, HARD_EIGHT, HARD_FOUR};

/// At a run's beginning, at the end of reading, when the first search is asked and when the look at
/// the first cube ends; before and after the first cube and its halves, which hands take; and at the
/// end of each stage. The look at the first cube counts once, and not where a hand takes it.
const HALVES: [u64; 14] = [
    5_000, 6_234, 6_300, 6_450, 6_470, 6_500, 6_500, 6_600, 6_600, 6_800, 8_284, 8_291, 69_291,
    UNREAD,
];

/// The same with four quarters.
const QUARTERS: [u64; 22] = [
    5_000, 6_234, 6_300, 6_450, 6_470, 6_500, 6_500, 6_600, 6_600, 6_800, 7_000, 7_100, 7_100,
    7_300, 7_300, 7_600, 7_600, 8_000, 8_284, 8_291, 69_291, UNREAD,
];

/// The first cube is looked at and split, since a literal fails; its halves are searched.
const DIVIDED: Row = Row {
    formula: HARD_FOUR,
    words: &[
        "cubesat",
        "solve",
        "--stats",
        "--search",
        "focused",
        "--simplify",
        "no",
        "--budget",
        "1840",
        "--divide",
        "2",
        "--proof",
        "PROOF",
        "FORMULA",
    ],
    times: &HALVES,
    tells: false,
    lines: "c formula: 44 variables, 124 clauses, 360 literals
c hands: 1
c search: 1843 conflicts, 2529 decisions, 25009 propagations, 14 restarts
c clauses: 1844 learnt, 530 forgotten
c focused search: 3 rounds, 1 changes of mode, 2521 literals removed, 5 units
c divided: 43 decisions in 40 conflicts of stable mode, into at most 2 cubes
c looked at: 1 cubes, 1 failed literals, 0.150 s
c searched: 2 cubes
c cubes: 3 solved, 1 split, 0 skipped
c learnt: 4 lines in refuted cubes, kept in 24 bytes
c solved by each hand: 3
c proof: 7 lines, 102 bytes
c reading: 1.234 s
c solving: 2.050 s
c joining: 0.007 s
c writing: 61.000 s
c conflicts a second: 899
",
    ..SPLIT
};

static ROWS: [Row; 5] = [
    DIVIDED,
    // halves are looked at too, and a literal fails in each
    Row {
        formula: HARD_EIGHT,
        words: &[
            "cubesat",
            "solve",
            "--stats",
            "--search",
            "focused",
            "--simplify",
            "no",
            "--budget",
            "1840",
            "--divide",
            "3",
            "--proof",
            "PROOF",
            "FORMULA",
        ],
        times: &QUARTERS,
        lines: "c formula: 45 variables, 128 clauses, 384 literals
c hands: 1
c search: 1846 conflicts, 2594 decisions, 25085 propagations, 14 restarts
c clauses: 1846 learnt, 530 forgotten
c focused search: 3 rounds, 1 changes of mode, 2521 literals removed, 7 units
c divided: 43 decisions in 40 conflicts of stable mode, into at most 4 cubes
c looked at: 3 cubes, 2 failed literals, 0.450 s
c searched: 4 cubes
c cubes: 7 solved, 3 split, 0 skipped
c learnt: 8 lines in refuted cubes, kept in 48 bytes
c solved by each hand: 7
c proof: 17 lines, 277 bytes
c reading: 1.234 s
c solving: 2.050 s
c joining: 0.007 s
c writing: 61.000 s
c conflicts a second: 900
",
        ..DIVIDED
    },
    // and quarters, which are refuted by that; no tree is kept
    Row {
        formula: HARD_EIGHT,
        words: &[
            "cubesat",
            "solve",
            "--stats",
            "--search",
            "focused",
            "--simplify",
            "no",
            "--budget",
            "1840",
            "--divide",
            "64",
            "FORMULA",
        ],
        times: &QUARTERS,
        lines: "c formula: 45 variables, 128 clauses, 384 literals
c hands: 1
c search: 1846 conflicts, 2594 decisions, 25085 propagations, 14 restarts
c clauses: 1846 learnt, 530 forgotten
c focused search: 3 rounds, 1 changes of mode, 2521 literals removed, 7 units
c divided: 43 decisions in 40 conflicts of stable mode, into at most 64 cubes
c looked at: 7 cubes, 2 failed literals, 1.450 s
c searched: 0 cubes
c cubes: 7 solved, at least 3 split
c solved by each hand: 7
c reading: 1.234 s
c solving: 2.050 s
c conflicts a second: 900
",
        ..DIVIDED
    },
    // the conflict at which it is asked counts once
    Row {
        formula: EIGHT,
        words: &[
            "cubesat",
            "solve",
            "--stats",
            "--search",
            "focused",
            "--simplify",
            "no",
            "--budget",
            "1",
            "--divide",
            "2",
            "FORMULA",
        ],
        times: &[5_000, 6_234, 8_284, UNREAD],
        lines: "c formula: 3 variables, 8 clauses, 24 literals
c hands: 1
c search: 5 conflicts, 4 decisions, 13 propagations, 0 restarts
c clauses: 4 learnt, 0 forgotten
c focused search: 0 rounds, 0 changes of mode, 0 literals removed, 2 units
c not divided: 0 decisions in 0 conflicts of stable mode
c cubes: 3 solved, at least 1 split
c solved by each hand: 3
c reading: 1.234 s
c solving: 2.050 s
c conflicts a second: 2
",
        ..DIVIDED
    },
    Row {
        formula: FOUR,
        words: &[
            "cubesat",
            "solve",
            "--stats",
            "--search",
            "focused",
            "--simplify",
            "no",
            "FORMULA",
        ],
        times: &[5_000, 6_234, 8_284, UNREAD],
        lines: "c formula: 2 variables, 4 clauses, 8 literals
c hands: 1
c search: 2 conflicts, 1 decisions, 4 propagations, 0 restarts
c clauses: 2 learnt, 0 forgotten
c focused search: 0 rounds, 0 changes of mode, 0 literals removed, 1 units
c not divided: the focused search ended after 2 conflicts
c cubes: 1 solved
c solved by each hand: 1
c reading: 1.234 s
c solving: 2.050 s
c conflicts a second: 0
",
        ..DIVIDED
    },
];

#[test]
fn figures_of_divided_runs(rt: HostRuntime) -> Result<(), Fail> {
    let paths = Paths::of(&rt, "divided.cnf")?;
    let process = path_of(&rt, "divided_process")?;
    fs::write(&rt, process.as_str(), PROCESS)?;
    for row in &ROWS {
        let clock = Readings::new(row.times);
        let fake = Fake::telling(&rt, &clock, told_by(&paths, process.as_str(), row));
        assert!(rt; holds(&fake, &paths, row)?, "{} {}", row.lines, row.fault);
    }
    Ok(())
}
