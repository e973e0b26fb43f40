//! Worked rows of literals at level 0 that become clauses of their own.
use crate::acts::{Act, Case, Opening, Row};
use kernel::Closed;

pub static CASES: [Case; 2] = [
    // The clauses are the reasons from then on, below decisions too. They count among the learnt
    // ones: the next one has the next number, and another cube begins with none.
    Case {
        name: "entries with clauses of several literals",
        text: "p cnf 6 3\n1 2 3 0\n1 -3 4 0\n-4 5 6 0\n",
        opening: Opening::Cube(&[-1, -2]),
        rows: &[
            Row(
                Act::Nothing,
                Closed::Quiet,
                &[(-1, 0, 0), (-2, 0, 0), (3, 1, 0), (4, 2, 0)],
            ),
            Row(
                Act::LearnEntry(3),
                Closed::Quiet,
                &[(-1, 0, 0), (-2, 0, 0), (3, 1, 0), (4, 4, 0)],
            ),
            Row(
                Act::LearnEntry(2),
                Closed::Quiet,
                &[(-1, 0, 0), (-2, 0, 0), (3, 5, 0), (4, 4, 0)],
            ),
            Row(
                Act::Decide(-5),
                Closed::Quiet,
                &[
                    (-1, 0, 0),
                    (-2, 0, 0),
                    (3, 5, 0),
                    (4, 4, 0),
                    (-5, 0, 1),
                    (6, 3, 1),
                ],
            ),
            Row(
                Act::BackTo(0),
                Closed::Quiet,
                &[(-1, 0, 0), (-2, 0, 0), (3, 5, 0), (4, 4, 0)],
            ),
            Row(
                Act::LearnUnit(5),
                Closed::Quiet,
                &[(-1, 0, 0), (-2, 0, 0), (3, 5, 0), (4, 4, 0), (5, 6, 0)],
            ),
            Row(Act::Restart(&[3]), Closed::Quiet, &[(3, 0, 0)]),
            Row(
                Act::Restart(&[3, -1]),
                Closed::Quiet,
                &[(3, 0, 0), (-1, 0, 0), (4, 2, 0)],
            ),
            Row(
                Act::Restart(&[-3, -4]),
                Closed::Quiet,
                &[(-3, 0, 0), (-4, 0, 0)],
            ),
        ],
    },
    Case {
        name: "entries of a conflict",
        text: "p cnf 3 3\n1 2 0\n-2 3 0\n-2 -3 0\n",
        opening: Opening::Cube(&[-1]),
        rows: &[
            Row(
                Act::Nothing,
                Closed::Conflict(3),
                &[(-1, 0, 0), (2, 1, 0), (3, 2, 0)],
            ),
            Row(
                Act::LearnEntry(1),
                Closed::Conflict(3),
                &[(-1, 0, 0), (2, 4, 0), (3, 2, 0)],
            ),
            Row(
                Act::LearnEntry(2),
                Closed::Conflict(3),
                &[(-1, 0, 0), (2, 4, 0), (3, 5, 0)],
            ),
            Row(Act::Restart(&[-2]), Closed::Quiet, &[(-2, 0, 0), (1, 1, 0)]),
        ],
    },
];
