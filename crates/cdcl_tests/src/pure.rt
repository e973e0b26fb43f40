//! Worked searches of formulas with pure variables: their unit clauses stand behind the formula's
//! own, and before what is learnt.
use crate::outcomes::{Row, Wanted};
use test_samples::{FOUR_PURE, FOUR_UNUSED};

pub static ROWS: [Row; 11] = [
    (
        "against a unit",
        FOUR_UNUSED,
        &[3],
        1,
        Wanted::Refuted(&[(&[], &[5])]),
    ),
    (
        "a pure variable true",
        FOUR_PURE,
        &[3, -1],
        1,
        Wanted::Refuted(&[(&[], &[1])]),
    ),
    (
        "a clause behind the unit",
        FOUR_UNUSED,
        &[],
        2,
        Wanted::Refuted(&[(&[1], &[1, 2]), (&[], &[6, 3, 4])]),
    ),
    (
        "half -1, unused",
        FOUR_UNUSED,
        &[-1],
        1,
        Wanted::Refuted(&[(&[], &[1, 2])]),
    ),
    (
        "half -1, negated",
        FOUR_PURE,
        &[-1],
        1,
        Wanted::Refuted(&[(&[], &[2, 3])]),
    ),
    (
        "half 1, unused",
        FOUR_UNUSED,
        &[1],
        1,
        Wanted::Refuted(&[(&[], &[3, 4])]),
    ),
    (
        "half 1, negated",
        FOUR_PURE,
        &[1],
        1,
        Wanted::Refuted(&[(&[], &[4, 5])]),
    ),
    ("root, unused", FOUR_UNUSED, &[], 1, Wanted::Exhausted),
    ("root, negated", FOUR_PURE, &[], 1, Wanted::Exhausted),
    (
        "a model of a clause",
        "p cnf 2 1\n1 -2 0\n",
        &[],
        1,
        Wanted::Model(&[false, false]),
    ),
    (
        "a model of no clause",
        "p cnf 3 0\n",
        &[],
        1,
        Wanted::Model(&[false, false, false]),
    ),
];
