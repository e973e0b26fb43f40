//! `solve --stats` of runs that lower a model, by a clock that a test sets.
use crate::timed::{FOCUSED_TIMES, Row, SPLIT, holds};
use std::test::Fail;
use test_console::Paths;
use test_console::clocks::Readings;
use test_console::fake::Fake;

/// When the limit of ten seconds begins, before the search that is made first, the focused one, the
/// first question and the second.
const LOWERED_SO_FAR: [u64; 5] = [5_000, 6_300, 6_400, 14_999, 15_000];

/// The same, and before them at the run's beginning, behind the limit's at the end of reading, and when
/// the search has ended that says whether the formula is simplified.
const SHOWN_SO_FAR: [u64; 8] = [5_000, 5_000, 6_234, 6_300, 6_400, 6_500, 14_999, 15_000];

/// The ordered search comes to -1 2 -3 after a conflict, and the focused one to 1 2 3.
pub(crate) const HIGHER: &str = "p cnf 3 4\n1 2 3 0\n1 2 -3 0\n-1 2 3 0\n-1 2 -3 0\n";

/// The search that is made first decides -1 and -2, and 3 brings the conflict. The focused one decides
/// 3, 2 and 1. The first question assumes -1 and decides 3, and 2 follows. The second begins with -1 at
/// level 0 and assumes -2; the conflict comes with 3, and 2 is learnt and gone over. The third begins
/// with -1 and 2, and assumes -3.
const LOWERED: Row = Row {
    formula: HIGHER,
    words: &[
        "cubesat",
        "solve",
        "--stats",
        "--search",
        "automatic",
        "--budget",
        "1",
        "FORMULA",
    ],
    times: &FOCUSED_TIMES,
    tells: false,
    status: 10,
    lines: "c formula: 3 variables, 4 clauses, 12 literals
c hands: 1
c first search: ordered, 1 conflicts, undecided
c search: 2 conflicts, 9 decisions, 16 propagations, 0 restarts
c clauses: 1 learnt, 0 forgotten
c focused search: 0 rounds, 0 changes of mode, 0 literals removed, 0 units
c not divided: the focused search ended after 0 conflicts
c cubes: 1 solved
c solved by each hand: 1
c lowering: 3 of 3 variables settled, 3 questions, 2 with a model, 1 without, 1 conflicts
c reading: 1.234 s
c solving: 2.050 s
c conflicts a second: 0
",
    ..SPLIT
};

static ROWS: [Row; 4] = [
    LOWERED,
    Row {
        words: &[
            "cubesat",
            "solve",
            "--stats",
            "--search",
            "automatic",
            "--budget",
            "1",
            "--any-model",
            "FORMULA",
        ],
        lines: "c formula: 3 variables, 4 clauses, 12 literals
c hands: 1
c first search: ordered, 1 conflicts, undecided
c search: 1 conflicts, 5 decisions, 6 propagations, 0 restarts
c clauses: 0 learnt, 0 forgotten
c focused search: 0 rounds, 0 changes of mode, 0 literals removed, 0 units
c not divided: the focused search ended after 0 conflicts
c cubes: 1 solved
c solved by each hand: 1
c reading: 1.234 s
c solving: 2.050 s
c conflicts a second: 0
",
        ..LOWERED
    },
    // the limit is reached before the second question
    Row {
        words: &[
            "cubesat",
            "solve",
            "--search",
            "automatic",
            "--budget",
            "1",
            "--seconds",
            "10",
            "FORMULA",
        ],
        times: &LOWERED_SO_FAR,
        room: 200,
        lines: "",
        ..LOWERED
    },
    Row {
        words: &[
            "cubesat",
            "solve",
            "--stats",
            "--search",
            "automatic",
            "--budget",
            "1",
            "--seconds",
            "10",
            "--proof",
            "PROOF",
            "FORMULA",
        ],
        times: &SHOWN_SO_FAR,
        room: 200,
        lines: "c formula: 3 variables, 4 clauses, 12 literals
c hands: 1
c first search: ordered, 1 conflicts, undecided
c search: 1 conflicts, 7 decisions, 9 propagations, 0 restarts
c clauses: 0 learnt, 0 forgotten
c focused search: 0 rounds, 0 changes of mode, 0 literals removed, 0 units
c not divided: the focused search ended after 0 conflicts
c cubes: 1 solved
c solved by each hand: 1
c lowering: 1 of 3 variables settled, 1 questions, 1 with a model, 0 without, 0 conflicts
c proof: 0 lines, 0 bytes
c reading: 1.234 s
",
        ..LOWERED
    },
];

#[test]
fn figures_of_lowerings(rt: HostRuntime) -> Result<(), Fail> {
    let paths = Paths::of(&rt, "lowered.cnf")?;
    for row in &ROWS {
        let clock = Readings::new(row.times);
        let fake = Fake::telling(&rt, &clock, paths.missing.as_str());
        assert!(rt; holds(&fake, &paths, row)?, "{} {}", row.lines, row.fault);
    }
    Ok(())
}
