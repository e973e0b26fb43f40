//! Worked rows of kernels that are opened with units behind the formula's clauses.
use crate::acts::{Act, Case, Opening, Row};
use kernel::Closed;

pub static CASES: [Case; 6] = [
    // A unit has the number behind the last clause, and a learnt clause the next one. Variable 2 is
    // at level 0, so a decision has one level less than without the unit.
    Case {
        name: "a level less",
        text: "p cnf 4 2\n1 3 4 0\n1 3 -4 0\n",
        opening: Opening::Units(&[-2]),
        rows: &[
            Row(Act::Nothing, Closed::Quiet, &[(-2, 3, 0)]),
            Row(Act::Decide(-1), Closed::Quiet, &[(-2, 3, 0), (-1, 0, 1)]),
            Row(
                Act::Decide(-3),
                Closed::Conflict(2),
                &[(-2, 3, 0), (-1, 0, 1), (-3, 0, 2), (4, 1, 2)],
            ),
            Row(
                Act::LearnPair(1, 1, 3),
                Closed::Quiet,
                &[(-2, 3, 0), (-1, 0, 1), (3, 4, 1)],
            ),
            Row(Act::Restart(&[]), Closed::Quiet, &[(-2, 3, 0)]),
            Row(
                Act::Restart(&[-1]),
                Closed::Quiet,
                &[(-1, 0, 0), (-2, 3, 0)],
            ),
            Row(Act::Restart(&[-2]), Closed::Quiet, &[(-2, 0, 0)]),
            Row(Act::Restart(&[2]), Closed::Conflict(3), &[(2, 0, 0)]),
            Row(
                Act::Restart(&[-1, -3]),
                Closed::Conflict(2),
                &[(-1, 0, 0), (-3, 0, 0), (4, 1, 0)],
            ),
        ],
    },
    // All four clauses over two variables, and a third variable that no clause has.
    Case {
        name: "an unused variable",
        text: "p cnf 3 4\n1 2 0\n1 -2 0\n-1 2 0\n-1 -2 0\n",
        opening: Opening::Units(&[-3]),
        rows: &[
            Row(Act::Nothing, Closed::Quiet, &[(-3, 5, 0)]),
            Row(
                Act::Decide(-1),
                Closed::Conflict(2),
                &[(-3, 5, 0), (-1, 0, 1), (2, 1, 1)],
            ),
            Row(
                Act::LearnUnit(1),
                Closed::Conflict(4),
                &[(-3, 5, 0), (1, 6, 0), (2, 3, 0)],
            ),
            Row(Act::Restart(&[3]), Closed::Conflict(5), &[(3, 0, 0)]),
            Row(
                Act::Restart(&[-1]),
                Closed::Conflict(2),
                &[(-1, 0, 0), (2, 1, 0)],
            ),
            Row(Act::Restart(&[]), Closed::Quiet, &[(-3, 5, 0)]),
        ],
    },
    // Units are numbered in the order in which they are given, and wait together with the formula's
    // clauses of one literal.
    Case {
        name: "units in their order",
        text: "p cnf 4 2\n1 2 3 0\n4 4 0\n",
        opening: Opening::Units(&[-3, -1]),
        rows: &[
            Row(
                Act::Nothing,
                Closed::Quiet,
                &[(4, 2, 0), (-3, 3, 0), (-1, 4, 0), (2, 1, 0)],
            ),
            Row(Act::Restart(&[1]), Closed::Conflict(4), &[(1, 0, 0)]),
            Row(
                Act::Restart(&[-2]),
                Closed::Conflict(4),
                &[(-2, 0, 0), (4, 2, 0), (-3, 3, 0), (1, 1, 0)],
            ),
            Row(
                Act::Restart(&[]),
                Closed::Quiet,
                &[(4, 2, 0), (-3, 3, 0), (-1, 4, 0), (2, 1, 0)],
            ),
        ],
    },
    Case {
        name: "units alone",
        text: "p cnf 2 0\n",
        opening: Opening::Units(&[-1, 2]),
        rows: &[
            Row(Act::Nothing, Closed::Quiet, &[(-1, 1, 0), (2, 2, 0)]),
            Row(Act::Restart(&[-2]), Closed::Conflict(2), &[(-2, 0, 0)]),
        ],
    },
    Case {
        name: "a unit behind an empty clause",
        text: "p cnf 1 1\n0\n",
        opening: Opening::Units(&[-1]),
        rows: &[
            Row(Act::Nothing, Closed::Conflict(1), &[]),
            Row(Act::Restart(&[1]), Closed::Conflict(1), &[(1, 0, 0)]),
        ],
    },
    Case {
        name: "a unit against a clause of one literal",
        text: "p cnf 1 1\n1 0\n",
        opening: Opening::Units(&[-1]),
        rows: &[
            Row(Act::Nothing, Closed::Conflict(2), &[(1, 1, 0)]),
            Row(Act::Restart(&[-1]), Closed::Conflict(1), &[(-1, 0, 0)]),
        ],
    },
];
