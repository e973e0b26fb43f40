//! Going over to another cube: what propagation then answers is as if the kernel were opened anew,
//! with what was learnt before where that is kept.
use crate::acts::{Act, Case, Opening, Row};
use kernel::Closed;
use test_samples::FOUR;

pub static CASES: [Case; 4] = [
    // The search of the root, a decision, a conflict, and a clause learnt as the fifth; the two
    // halves; and the root again.
    Case {
        name: "from cube to cube",
        text: FOUR,
        opening: Opening::Cube(&[]),
        rows: &[
            Row(Act::Nothing, Closed::Quiet, &[]),
            Row(
                Act::Decide(-1),
                Closed::Conflict(2),
                &[(-1, 0, 1), (2, 1, 1)],
            ),
            Row(
                Act::LearnUnit(1),
                Closed::Conflict(4),
                &[(1, 5, 0), (2, 3, 0)],
            ),
            Row(
                Act::Restart(&[-1]),
                Closed::Conflict(2),
                &[(-1, 0, 0), (2, 1, 0)],
            ),
            Row(
                Act::Restart(&[1]),
                Closed::Conflict(4),
                &[(1, 0, 0), (2, 3, 0)],
            ),
            Row(Act::Restart(&[]), Closed::Quiet, &[]),
            Row(
                Act::Decide(-1),
                Closed::Conflict(2),
                &[(-1, 0, 1), (2, 1, 1)],
            ),
            Row(
                Act::LearnUnit(1),
                Closed::Conflict(4),
                &[(1, 5, 0), (2, 3, 0)],
            ),
        ],
    },
    Case {
        name: "from a decision to a cube",
        text: "p cnf 3 2\n2 3 0\n1 -3 0\n",
        opening: Opening::Cube(&[-2]),
        rows: &[
            Row(
                Act::Nothing,
                Closed::Quiet,
                &[(-2, 0, 0), (3, 1, 0), (1, 2, 0)],
            ),
            Row(Act::Restart(&[]), Closed::Quiet, &[]),
            Row(
                Act::Decide(-1),
                Closed::Quiet,
                &[(-1, 0, 1), (-3, 2, 1), (2, 1, 1)],
            ),
            Row(
                Act::Restart(&[-1, -2]),
                Closed::Conflict(2),
                &[(-1, 0, 0), (-2, 0, 0), (3, 1, 0)],
            ),
        ],
    },
    // The unit that was learnt is one of the first clauses: it waits in each cube.
    Case {
        name: "a unit that is kept",
        text: FOUR,
        opening: Opening::Cube(&[]),
        rows: &[
            Row(
                Act::Decide(-1),
                Closed::Conflict(2),
                &[(-1, 0, 1), (2, 1, 1)],
            ),
            Row(
                Act::LearnUnit(1),
                Closed::Conflict(4),
                &[(1, 5, 0), (2, 3, 0)],
            ),
            Row(
                Act::KeepAndRestart(&[]),
                Closed::Conflict(4),
                &[(1, 5, 0), (2, 3, 0)],
            ),
            Row(
                Act::Restart(&[-2]),
                Closed::Conflict(3),
                &[(-2, 0, 0), (1, 1, 0)],
            ),
            Row(
                Act::Restart(&[]),
                Closed::Conflict(4),
                &[(1, 5, 0), (2, 3, 0)],
            ),
        ],
    },
    // A clause of two literals is kept, and the one that is learnt after it isn't.
    Case {
        name: "a clause that is kept",
        text: "p cnf 4 2\n1 3 4 0\n1 3 -4 0\n",
        opening: Opening::Cube(&[]),
        rows: &[
            Row(Act::Decide(-1), Closed::Quiet, &[(-1, 0, 1)]),
            Row(Act::Decide(-2), Closed::Quiet, &[(-1, 0, 1), (-2, 0, 2)]),
            Row(
                Act::Decide(-3),
                Closed::Conflict(2),
                &[(-1, 0, 1), (-2, 0, 2), (-3, 0, 3), (4, 1, 3)],
            ),
            Row(
                Act::LearnPair(1, 1, 3),
                Closed::Quiet,
                &[(-1, 0, 1), (3, 3, 1)],
            ),
            Row(
                Act::KeepAndRestart(&[-1]),
                Closed::Quiet,
                &[(-1, 0, 0), (3, 3, 0)],
            ),
            Row(
                Act::LearnUnit(2),
                Closed::Quiet,
                &[(-1, 0, 0), (3, 3, 0), (2, 4, 0)],
            ),
            Row(Act::Restart(&[-3]), Closed::Quiet, &[(-3, 0, 0), (1, 3, 0)]),
        ],
    },
];
