//! Worked rows: what propagation answers, and the whole trail after it.
use crate::acts::{Act, Case, Opening, Row, failed_row};
use crate::{entry_units, forgetting, restarts, units};
use kernel::Closed;
use std::alloc::Global;
use std::process::Abort;
use std::test::Fail;
use test_samples::{EIGHT, FOUR};

static DECISIONS: [Case; 5] = [
    Case {
        name: "two variables",
        text: FOUR,
        opening: Opening::Cube(&[]),
        rows: &[
            Row(Act::Nothing, Closed::Quiet, &[]),
            Row(
                Act::Decide(-1),
                Closed::Conflict(2),
                &[(-1, 0, 1), (2, 1, 1)],
            ),
            Row(
                Act::LearnUnit(1),
                Closed::Conflict(4),
                &[(1, 5, 0), (2, 3, 0)],
            ),
        ],
    },
    Case {
        name: "a level that no clause names",
        text: "p cnf 4 2\n1 3 4 0\n1 3 -4 0\n",
        opening: Opening::Cube(&[]),
        rows: &[
            Row(Act::Decide(-1), Closed::Quiet, &[(-1, 0, 1)]),
            Row(Act::Decide(-2), Closed::Quiet, &[(-1, 0, 1), (-2, 0, 2)]),
            Row(
                Act::Decide(-3),
                Closed::Conflict(2),
                &[(-1, 0, 1), (-2, 0, 2), (-3, 0, 3), (4, 1, 3)],
            ),
            Row(
                Act::LearnPair(1, 1, 3),
                Closed::Quiet,
                &[(-1, 0, 1), (3, 3, 1)],
            ),
        ],
    },
    Case {
        name: "four conflicts",
        text: EIGHT,
        opening: Opening::Cube(&[]),
        rows: &[
            Row(Act::Decide(-1), Closed::Quiet, &[(-1, 0, 1)]),
            Row(
                Act::Decide(-2),
                Closed::Conflict(2),
                &[(-1, 0, 1), (-2, 0, 2), (3, 1, 2)],
            ),
            Row(
                Act::LearnPair(1, 1, 2),
                Closed::Conflict(4),
                &[(-1, 0, 1), (2, 9, 1), (3, 3, 1)],
            ),
            Row(Act::LearnUnit(1), Closed::Quiet, &[(1, 10, 0)]),
            Row(
                Act::Decide(-2),
                Closed::Conflict(6),
                &[(1, 10, 0), (-2, 0, 1), (3, 5, 1)],
            ),
            Row(
                Act::LearnUnit(2),
                Closed::Conflict(8),
                &[(1, 10, 0), (2, 11, 0), (3, 7, 0)],
            ),
        ],
    },
    Case {
        name: "the negative half",
        text: EIGHT,
        opening: Opening::Cube(&[-1]),
        rows: &[
            Row(
                Act::Decide(-2),
                Closed::Conflict(2),
                &[(-1, 0, 0), (-2, 0, 1), (3, 1, 1)],
            ),
            Row(
                Act::LearnUnit(2),
                Closed::Conflict(4),
                &[(-1, 0, 0), (2, 9, 0), (3, 3, 0)],
            ),
        ],
    },
    Case {
        name: "the positive half",
        text: EIGHT,
        opening: Opening::Cube(&[1]),
        rows: &[
            Row(
                Act::Decide(-2),
                Closed::Conflict(6),
                &[(1, 0, 0), (-2, 0, 1), (3, 5, 1)],
            ),
            Row(
                Act::LearnUnit(2),
                Closed::Conflict(8),
                &[(1, 0, 0), (2, 9, 0), (3, 7, 0)],
            ),
        ],
    },
];

static AT_THE_ROOT: [Case; 10] = [
    Case {
        name: "cube -1 -2",
        text: EIGHT,
        opening: Opening::Cube(&[-1, -2]),
        rows: &[Row(
            Act::Nothing,
            Closed::Conflict(2),
            &[(-1, 0, 0), (-2, 0, 0), (3, 1, 0)],
        )],
    },
    Case {
        name: "cube -1 2",
        text: EIGHT,
        opening: Opening::Cube(&[-1, 2]),
        rows: &[Row(
            Act::Nothing,
            Closed::Conflict(4),
            &[(-1, 0, 0), (2, 0, 0), (3, 3, 0)],
        )],
    },
    Case {
        name: "cube 1 -2",
        text: EIGHT,
        opening: Opening::Cube(&[1, -2]),
        rows: &[Row(
            Act::Nothing,
            Closed::Conflict(6),
            &[(1, 0, 0), (-2, 0, 0), (3, 5, 0)],
        )],
    },
    Case {
        name: "cube 1 2",
        text: EIGHT,
        opening: Opening::Cube(&[1, 2]),
        rows: &[Row(
            Act::Nothing,
            Closed::Conflict(8),
            &[(1, 0, 0), (2, 0, 0), (3, 7, 0)],
        )],
    },
    Case {
        name: "the least unit clause comes first",
        text: "p cnf 3 2\n2 3 0\n1 -3 0\n",
        opening: Opening::Cube(&[-1, -2]),
        rows: &[Row(
            Act::Nothing,
            Closed::Conflict(2),
            &[(-1, 0, 0), (-2, 0, 0), (3, 1, 0)],
        )],
    },
    Case {
        name: "a false clause comes before a unit one",
        text: "p cnf 3 2\n2 3 0\n1 2 0\n",
        opening: Opening::Cube(&[-1, -2]),
        rows: &[Row(Act::Nothing, Closed::Conflict(2), &[(-1, 0, 0), (-2, 0, 0)])],
    },
    Case {
        name: "an empty clause behind a unit one",
        text: "p cnf 1 2\n1 0\n0\n",
        opening: Opening::Cube(&[]),
        rows: &[Row(Act::Nothing, Closed::Conflict(2), &[])],
    },
    Case {
        name: "an empty clause alone",
        text: "p cnf 0 1\n0\n",
        opening: Opening::Cube(&[]),
        rows: &[Row(Act::Nothing, Closed::Conflict(1), &[])],
    },
    Case {
        name: "repeated literals",
        text: "p cnf 2 2\n1 1 0\n-1 2 -1 2 2 0\n",
        opening: Opening::Cube(&[]),
        rows: &[Row(Act::Nothing, Closed::Quiet, &[(1, 1, 0), (2, 2, 0)])],
    },
    Case {
        name: "literals of both signs",
        text: "p cnf 2 3\n1 -1 0\n2 -1 1 0\n-2 2 1 0\n",
        opening: Opening::Cube(&[]),
        rows: &[
            Row(Act::Nothing, Closed::Quiet, &[]),
            Row(Act::Decide(-1), Closed::Quiet, &[(-1, 0, 1)]),
            Row(Act::Decide(2), Closed::Quiet, &[(-1, 0, 1), (2, 0, 2)]),
        ],
    },
];

/// The kernels of cases go through their rows.
fn all_go(rt: &impl Abort, alloc: Global, cases: &[Case]) -> Result<(), Fail> {
    for case in cases {
        let failed = failed_row(alloc, case)?;
        assert!(rt; failed.is_none(), "row {failed:?} of {}", case.name);
    }
    Ok(())
}

#[test]
fn kernels_go_through_their_rows(rt: HostRuntime) -> Result<(), Fail> {
    all_go(&rt, rt.alloc(), &DECISIONS)?;
    all_go(&rt, rt.alloc(), &AT_THE_ROOT)?;
    all_go(&rt, rt.alloc(), &units::CASES)?;
    all_go(&rt, rt.alloc(), &entry_units::CASES)?;
    all_go(&rt, rt.alloc(), &restarts::CASES)?;
    all_go(&rt, rt.alloc(), &forgetting::CASES)
}
