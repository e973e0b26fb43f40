//! `check --stats` by a known clock and a known size of the process.
use crate::timed::{Row, TIMES};
use test_samples::{FOUR, FOUR_PROOF};

/// A check of the proof of the four clauses.
const CHECKED: Row = Row {
    formula: FOUR,
    proof: FOUR_PROOF,
    words: &["cubesat", "check", "--stats", "FORMULA", "PROOF"],
    times: &TIMES,
    room: 100,
    tells: true,
    status: 0,
    lines: "c formula: 5 lines, 38 bytes
c proof: 3 lines, 35 bytes
c checking: 1.234 s, peak memory 4321 KiB
",
    fault: "",
};

pub(crate) const ROWS: [Row; 5] = [
    CHECKED,
    Row {
        tells: false,
        lines: "c formula: 5 lines, 38 bytes
c proof: 3 lines, 35 bytes
c checking: 1.234 s
",
        ..CHECKED
    },
    Row {
        proof: "5 1 0 1 2 0\n",
        status: 1,
        lines: "c formula: 5 lines, 38 bytes
c proof: 1 lines, 12 bytes
c checking: 1.234 s, peak memory 4321 KiB
",
        fault: "c ",
        ..CHECKED
    },
    Row {
        formula: "p cnf 2 1\n1 3 0\n",
        status: 1,
        lines: "c formula: 2 lines, 16 bytes
c proof: 0 lines, 0 bytes
c checking: 1.234 s, peak memory 4321 KiB
",
        fault: "fault 51: refusal 5 at line 2, column 3",
        ..CHECKED
    },
    Row {
        room: 3,
        status: 1,
        fault: "fault 54",
        ..CHECKED
    },
];
