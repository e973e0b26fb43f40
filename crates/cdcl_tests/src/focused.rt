//! Worked searches by the focused search. What they come to is from a program of its own, which
//! goes by the definition.
ghost use Rattle.std.specs.Prelude.{◌≤◌};

use crate::outcomes::{Wanted, cube_in, is_wanted, outcome_by};
use cdcl::Plan;
use heuristics::Constants;
use std::alloc::Global;
use std::test::Fail;
use test_samples::{EIGHT, FOUR};

/// A name, a formula, the root's budget, and what the root is to come to. Long texts are bytes: that
/// one is text is checked by a prover's step a byte.
pub(crate) type Row<'a, T> = (&'a str, T, u32, Wanted<'a>);

// clauses with both signs of a variable hold none, and no unit of a pure variable is added
const NOT_ALL_HELD: &str = "p cnf 4 6\n1 2 0\n-1 2 0\n1 -2 0\n-1 -2 0\n1 -3 0\n4 -4 0\n";

static USUAL: [Row<&str>; 7] = [
    ("four, one conflict", FOUR, 1, Wanted::ExhaustedOn(2)),
    (
        "four, two conflicts",
        FOUR,
        2,
        Wanted::Refuted(&[(&[-2], &[2, 4]), (&[1], &[5, 1]), (&[], &[5, 6, 3])]),
    ),
    (
        "eight",
        EIGHT,
        4,
        Wanted::Refuted(&[
            (&[-2, -3], &[4, 8]),
            (&[-3], &[9, 2, 6]),
            (&[2], &[10, 1, 5]),
            (&[1], &[10, 11, 3]),
            (&[], &[10, 11, 12, 7]),
        ]),
    ),
    (
        "a variable that isn't held is false",
        "p cnf 3 3\n1 2 0\n-1 2 0\n3 -3 0\n",
        1,
        Wanted::Model(&[true, true, false]),
    ),
    (
        "a pure variable is decided",
        "p cnf 2 1\n1 -2 0\n",
        1,
        Wanted::Model(&[true, true]),
    ),
    (
        "not all held, one conflict",
        NOT_ALL_HELD,
        1,
        Wanted::ExhaustedOn(3),
    ),
    (
        "not all held, two conflicts",
        NOT_ALL_HELD,
        2,
        Wanted::Refuted(&[(&[-1], &[2, 4]), (&[2], &[7, 1]), (&[], &[7, 8, 3])]),
    ),
];

// with numbers so small that few conflicts come to all that the search does, and what each one does;
// in several tables, since the proof of a function that names one takes time by the square of its
// parts, of which the lines are most
static MANY_1: [Row<&[u8]>; 3] = [
    (
        "restarts, forgets, divides, removes, changes its mode",
        b"p cnf 17 76\n-13 -12 -11 0 -1 -2 -6 0 7 -11 12 0 -4 15 2 0 14 -17 1 0 -3 -10 17 0 -2 9 -7 0 5 -2 1 0 -1 -13 -12 0 -1 15 4 0 12 14 6 0 -11 -9 -5 0 -14 12 17 0 1 -12 -15 0 -16 11 -7 0 12 13 8 0 -16 -10 -8 0 9 -6 8 0 -7 1 -6 0 8 -16 1 0 -2 1 16 0 7 -14 -8 0 7 10 -6 0 3 7 -14 0 -6 -8 -7 0 8 -11 -1 0 -7 5 3 0 11 -10 5 0 11 12 -1 0 4 10 -11 0 -5 11 17 0 -5 -13 1 0 -9 10 7 0 -4 -7 15 0 -6 13 15 0 -6 -14 -15 0 -9 -16 13 0 3 -10 5 0 13 -6 12 0 14 12 -9 0 15 13 -4 0 1 -17 9 0 10 -4 -5 0 -12 11 10 0 11 16 -10 0 -5 10 -8 0 11 13 -4 0 -14 -1 6 0 -8 16 3 0 15 -11 -16 0 -8 11 -4 0 -12 -6 14 0 -5 -15 13 0 -13 12 5 0 -11 -3 -13 0 -12 -15 9 0 17 -5 -7 0 10 -13 6 0 13 3 -4 0 -5 11 -3 0 -12 7 13 0 -8 -10 -2 0 -8 -10 -4 0 -16 3 -8 0 -3 -4 7 0 -10 7 -5 0 17 -13 -15 0 -15 3 8 0 8 -6 5 0 -1 -8 17 0 -12 2 10 0 5 15 -10 0 11 14 16 0 -17 3 -2 0 3 -11 16 0 -9 14 13 0\n",
        1000,
        Wanted::Model(&[
            false, false, true, false, false, false, true, true, true, true, true, false, false,
            true, true, false, true,
        ]),
    ),
    (
        "restarts, forgets, divides, removes, changes its mode",
        b"p cnf 19 86\n-17 7 8 0 -3 -13 -14 0 5 1 14 0 -17 10 6 0 -3 5 9 0 -11 -5 -10 0 12 7 13 0 -11 17 -4 0 3 5 1 0 -18 19 -8 0 7 13 16 0 -9 -7 5 0 9 5 -8 0 9 6 -18 0 -15 -8 -5 0 11 -18 2 0 13 4 -19 0 -3 11 16 0 -7 -19 3 0 -9 -3 5 0 9 -1 -4 0 15 5 -8 0 -17 -19 12 0 13 15 -2 0 10 -9 -4 0 -4 3 18 0 -9 15 -17 0 6 -18 -16 0 -1 -4 -10 0 -3 12 -6 0 17 10 -7 0 -7 11 -16 0 7 -4 -15 0 19 -1 13 0 -19 4 -11 0 3 17 -4 0 -4 12 -1 0 -17 -7 19 0 18 2 13 0 14 -10 13 0 19 3 15 0 18 2 -6 0 -11 16 -8 0 11 -6 -2 0 17 8 -13 0 -9 4 18 0 -18 6 -1 0 -12 16 7 0 8 1 -18 0 3 -1 -10 0 -6 13 -12 0 -1 11 -16 0 5 14 10 0 -2 5 -18 0 9 -13 12 0 6 16 -7 0 -16 12 -14 0 9 1 -19 0 -7 -2 -10 0 -11 -5 -9 0 1 -4 13 0 6 -7 3 0 -6 2 -13 0 -15 4 12 0 12 -18 -8 0 18 5 -10 0 -7 5 -19 0 -17 -2 18 0 6 -13 19 0 17 -11 14 0 10 8 -11 0 -9 8 -18 0 -18 11 -16 0 7 17 -15 0 3 -10 -11 0 16 -3 4 0 -7 13 15 0 -12 -8 -9 0 -6 16 -18 0 -2 -11 -3 0 -18 -9 -3 0 1 -12 8 0 -13 -16 -1 0 -19 -18 11 0 1 -13 -16 0 -12 -6 -16 0\n",
        15,
        Wanted::ExhaustedOn(16),
    ),
    (
        "restarts, forgets, divides, removes, changes its mode",
        b"p cnf 13 65\n2 11 12 0 10 -12 11 0 -13 11 -2 1 0 -5 3 -11 -9 0 8 -10 -9 -4 0 11 2 -4 0 -6 -13 -2 0 -11 10 -3 5 0 7 -9 -6 3 0 -9 3 13 0 6 -5 -10 0 -2 -4 3 0 -5 11 2 0 -3 -13 11 -2 0 12 -2 -10 -3 0 -6 -11 1 0 -9 -5 8 0 8 11 4 0 6 -13 -9 -8 0 6 -4 5 0 1 10 -6 -2 0 6 -10 4 0 9 -6 7 -3 0 -6 -13 -9 0 -13 -6 10 0 7 -5 8 0 -1 -10 9 0 -10 2 1 -6 0 -11 -6 1 0 10 9 -2 6 0 -1 -6 2 4 0 -13 4 -6 0 12 10 2 0 -11 10 -9 0 3 -6 -4 0 11 -12 7 -6 0 -6 -4 -2 -12 0 7 -6 -12 0 7 -12 1 0 2 8 11 0 -13 11 5 0 -5 7 1 0 5 -6 10 0 -10 1 -3 0 6 9 -4 0 12 -1 -7 0 8 -4 -2 -12 0 -11 9 3 0 4 10 8 -11 0 6 2 12 13 0 7 1 13 0 7 8 1 0 -9 -2 -7 0 1 3 10 0 -6 12 -1 0 -13 -7 -11 0 -1 8 12 0 7 -6 3 -9 0 10 -7 1 0 -3 -6 -1 0 -1 3 4 0 11 -10 12 -6 0 -12 -7 4 0 -1 -5 -11 0 11 -5 8 0\n",
        1000,
        Wanted::Model(&[
            true, true, true, true, true, false, false, true, true, false, false, false, false,
        ]),
    ),
];

static MANY_2: [Row<&[u8]>; 1] = [(
    "forgets, divides, removes, changes its mode",
    b"p cnf 20 90\n-19 -4 13 0 17 1 14 0 5 2 1 0 8 13 20 0 10 -1 -16 0 12 -10 17 0 10 -6 11 0 7 5 13 0 14 -18 12 0 1 12 16 0 17 18 5 0 -19 -3 10 0 18 -9 -19 0 -3 -16 -14 0 -12 -14 17 0 1 19 9 0 -7 19 1 0 -9 -3 16 0 2 -19 -3 0 -7 1 -8 0 -15 -14 -3 0 -2 -1 -17 0 7 -5 15 0 10 1 -3 0 -18 10 -2 0 -15 17 -20 0 -14 5 7 0 -7 -14 9 0 -4 3 -17 0 19 3 -4 0 13 11 7 0 14 4 -20 0 15 6 5 0 -1 -5 -16 0 16 -5 -6 0 15 12 -11 0 -14 4 13 0 -5 16 15 0 -17 -12 -10 0 -14 -3 2 0 -9 17 1 0 8 -1 11 0 17 -8 2 0 11 -14 6 0 -13 -12 -17 0 -7 17 -12 0 -13 18 -6 0 -1 -19 6 0 5 13 -14 0 7 -3 13 0 -9 -13 -8 0 -17 -4 -12 0 -16 -17 -6 0 -17 -12 -14 0 -1 -15 7 0 19 -2 -16 0 -8 -16 -11 0 -16 5 -19 0 -10 12 20 0 7 -11 1 0 -4 7 19 0 -10 14 -5 0 -9 20 -7 0 -8 -1 -14 0 -12 7 -17 0 3 8 -19 0 12 -18 1 0 8 -17 -20 0 -15 20 -7 0 7 -8 18 0 3 -13 16 0 17 -15 10 0 -9 6 11 0 6 20 3 0 -17 -10 -16 0 18 -3 -20 0 -9 8 -7 0 17 -11 -4 0 17 12 -16 0 -1 18 -7 0 -2 12 4 0 9 11 -5 0 4 15 14 0 -4 -15 3 0 14 11 -8 0 8 9 -1 0 -3 -18 -11 0 5 7 -9 0 5 14 -18 0 5 -4 3 0\n",
    1000,
    Wanted::Forgetting(
        &[
            (&[-8, -16, -17], &[53, 57, 44, 85]),
            (&[-8, -14, -17], &[91, 54, 64, 10]),
            (&[-17, -20], &[68, 92, 32, 29, 52, 76, 9]),
            (&[-14, 17], &[15, 6, 79, 72, 10, 36, 64, 42]),
            (&[8, 17, 20], &[94, 2, 42, 86, 78, 63, 83, 55]),
            (&[17, 20], &[94, 2, 95, 43, 85, 78, 81, 83, 46, 55]),
            (&[17], &[94, 96, 2, 32, 78, 42, 85]),
            (&[-20], &[97, 93]),
            (&[2, -4, -11], &[97, 98, 29, 52, 19, 36, 61, 69]),
            (&[-1, -11, 14], &[97, 98, 22, 99, 83, 55, 69]),
            (&[-8, 14], &[85, 100, 20, 60]),
            (&[-8, -14], &[97, 54, 64, 20, 67, 70]),
            (&[1, 12], &[97, 98, 59, 10, 24, 53, 74]),
            (&[-14], &[97, 98, 54, 59, 102, 4, 103, 5, 86, 71, 18]),
            (&[-8], &[104, 101]),
            (&[13], &[98, 105, 4]),
            (&[-12], &[97, 106, 45]),
            (&[-18], &[104, 107, 9]),
            (&[-10], &[98, 107, 59]),
            (&[1], &[107, 103]),
            (&[-6], &[106, 108, 47]),
            (&[-16], &[109, 110, 5]),
            (&[-2], &[97, 110, 22]),
            (&[11], &[105, 110, 42]),
            (&[], &[104, 110, 114, 100]),
        ],
        &[(5, &[91, 92]), (10, &[93, 95])],
    ),
)];

// and with numbers by which more clauses are kept, and rounds and modes are longer
static LASTING_1: [Row<&[u8]>; 3] = [
    (
        "divides, removes, changes its mode",
        b"p cnf 12 60\n9 8 11 0 2 11 -4 7 0 -4 5 1 0 -10 -6 -2 0 -11 -5 2 0 -7 -9 6 0 -6 8 -11 0 -12 -7 9 0 -12 -1 7 0 9 -11 -3 -1 0 -5 4 -8 12 0 -4 -2 -11 5 0 -3 -1 -7 0 11 -2 -7 0 4 -12 10 0 10 -4 7 -2 0 -3 -5 -10 -1 0 -3 12 -1 0 -1 -11 4 0 -6 -3 -11 0 -10 1 -9 0 6 9 -10 -11 0 -10 -1 -3 -9 0 -11 -5 12 0 2 10 11 0 -8 -1 11 0 -8 10 6 0 6 7 5 0 4 -12 -5 2 0 8 5 10 0 -11 -10 -5 0 -12 -11 2 0 3 -1 -11 10 0 1 8 10 0 -9 -4 -10 0 -7 4 -1 0 6 -8 -7 9 0 -10 4 6 0 6 -1 -3 0 9 11 -3 0 8 2 11 5 0 12 7 6 0 5 -11 -7 1 0 3 -4 10 0 -2 -6 12 3 0 -6 -1 7 -12 0 7 5 9 0 1 6 10 -12 0 -12 8 7 -1 0 -6 -1 9 0 -1 10 11 0 5 -9 1 -8 0 9 7 5 -8 0 9 10 11 7 0 -6 2 12 0 -12 1 7 5 0 -11 -8 -10 0 8 5 1 11 0 -8 7 11 9 0 -8 10 -5 0\n",
        9,
        Wanted::ExhaustedOn(7),
    ),
    (
        "forgets, divides, removes, changes its mode",
        b"p cnf 9 90\n-7 -2 6 5 0 -5 -8 1 9 0 7 -9 8 -4 0 4 -5 -2 1 0 5 4 3 8 0 9 -6 2 -1 0 5 -7 9 -1 0 -3 1 5 7 0 1 -5 -7 -8 0 6 5 -4 1 0 -4 -1 -8 3 0 -5 -1 -3 6 0 2 -5 8 3 0 4 -6 -2 -9 0 3 -4 9 -6 0 9 6 8 -4 0 7 5 3 -1 0 -6 -9 -1 -5 0 6 -2 1 -7 0 5 -4 -8 -6 0 9 -5 -7 -8 0 -7 4 9 1 0 2 -5 9 -3 0 3 -6 -5 9 0 2 1 -9 3 0 2 1 -6 -4 0 -3 6 8 -1 0 5 -8 2 -7 0 -1 7 -5 9 0 -7 5 -8 4 0 5 -7 1 -6 0 2 -5 -6 8 0 -8 -9 -1 -2 0 3 4 6 1 0 5 7 6 3 0 2 -4 -6 7 0 -8 9 4 6 0 -9 5 3 -4 0 -3 9 2 -6 0 -3 -5 -9 -8 0 -1 -6 7 -4 0 -4 6 -2 -5 0 -9 -3 4 8 0 1 -9 -5 -8 0 -3 5 -4 -9 0 9 -7 -1 -4 0 2 -5 4 8 0 -2 9 -1 -8 0 1 9 4 -3 0 1 -5 -3 -7 0 -1 4 6 3 0 -8 4 9 1 0 -6 -4 8 9 0 -4 9 -8 -2 0 8 -6 4 -5 0 4 3 5 -6 0 9 -8 -3 1 0 -5 4 -2 -7 0 5 8 9 4 0 -1 9 6 -5 0 6 2 4 1 0 -6 -4 -5 1 0 4 -9 -8 -1 0 6 -7 8 -3 0 -6 -7 2 9 0 6 2 -7 -4 0 1 8 9 -6 0 2 9 -1 -6 0 -4 -5 -3 1 0 -7 3 -9 4 0 -3 -8 9 2 0 -6 2 -3 -5 0 2 7 -4 5 0 7 -1 9 3 0 1 8 -4 -7 0 -3 -8 7 -1 0 -6 9 -1 -7 0 -7 -1 4 3 0 3 -5 -6 2 0 7 9 -4 -2 0 -3 -6 -1 9 0 2 -4 7 -1 0 1 9 4 2 0 -3 -8 -2 5 0 6 7 -8 -3 0 1 4 -7 -5 0 7 -3 -5 6 0 3 2 -1 4 0 8 -4 -3 -6 0 3 -7 1 -6 0\n",
        15,
        Wanted::ExhaustedOn(9),
    ),
    (
        "forgets, divides, removes, changes its mode",
        b"p cnf 10 80\n-8 10 2 -6 0 -6 2 4 -5 0 -2 3 -1 -10 0 6 -3 7 -4 0 -10 -7 5 -8 0 9 6 -5 3 0 -10 3 -4 -1 0 -8 3 -7 9 0 9 -6 3 7 0 10 8 6 -3 0 3 -1 -9 5 0 3 6 10 -4 0 -9 -7 -8 1 0 -9 5 6 10 0 -9 8 1 -5 0 -6 -4 -8 3 0 6 -10 4 2 0 4 8 -10 9 0 6 -10 5 3 0 9 -10 3 6 0 -3 10 -5 9 0 -5 1 -6 7 0 -9 3 7 -8 0 -8 6 -2 10 0 -8 -5 1 -2 0 -10 4 -8 -1 0 -1 10 -2 -4 0 -2 -9 4 -5 0 -4 7 1 8 0 3 5 4 -8 0 -3 -10 -4 -2 0 8 7 2 3 0 1 -9 7 10 0 4 7 -1 6 0 10 -1 -9 -4 0 7 -6 -3 2 0 5 1 -7 -9 0 9 -6 8 -10 0 -3 9 -6 -7 0 7 3 -6 -4 0 4 6 -10 -8 0 -9 -3 7 8 0 -4 -5 -7 -6 0 -2 4 -1 -5 0 -8 -9 -1 5 0 -10 -1 5 8 0 -1 9 -7 6 0 3 10 2 -1 0 9 5 10 -2 0 2 -6 -5 -8 0 -5 -8 -7 -2 0 5 6 -9 -3 0 10 -7 -3 6 0 -10 6 1 4 0 10 4 6 -9 0 4 -3 -6 -8 0 -2 8 5 -4 0 5 4 -1 2 0 9 -7 1 -2 0 -6 -4 -8 5 0 -6 1 -10 8 0 -4 -10 1 -3 0 6 -1 -5 8 0 4 3 -9 6 0 1 -3 5 10 0 -1 10 -3 -7 0 4 2 -8 -1 0 9 6 8 2 0 5 -8 10 4 0 4 -6 1 -10 0 5 -10 2 7 0 5 9 -4 -1 0 -4 2 -1 -5 0 4 -9 -6 2 0 7 -3 8 -6 0 8 5 1 9 0 -4 10 7 -6 0 -2 7 -4 -3 0 -4 2 -8 10 0 4 -7 6 -5 0\n",
        25,
        Wanted::ExhaustedOn(6),
    ),
];

static LASTING_2: [Row<&[u8]>; 1] = [(
    "restarts, forgets, divides, removes, changes its mode",
    b"p cnf 19 82\n-11 -1 3 0 -11 12 -1 0 -18 -15 2 0 -12 17 1 0 7 12 -14 0 -10 -15 16 0 -18 -16 -13 0 5 -11 -13 0 -6 5 -17 0 5 6 -1 0 -15 10 7 0 7 -2 -11 0 9 -16 7 0 -8 16 -17 0 -8 6 -11 0 17 -6 4 0 -15 -4 -12 0 13 -11 -1 0 -12 -2 -13 0 3 17 -10 0 12 -7 8 0 -16 -6 9 0 4 19 12 0 -12 10 -13 0 -11 -1 18 0 2 -18 -19 0 6 -18 8 0 -14 2 6 0 -18 15 13 0 -12 7 4 0 -9 14 -4 0 -17 1 18 0 16 -10 -8 0 -7 -11 5 0 -17 1 3 0 10 9 4 0 14 -19 -3 0 1 -11 -13 0 -17 15 13 0 9 8 11 0 18 -17 13 0 18 -11 13 0 5 12 2 0 14 -2 1 0 -9 18 11 0 -4 -17 -3 0 8 19 -10 0 -13 11 -2 0 5 -2 -18 0 -14 11 -13 0 7 14 -1 0 4 18 -19 0 -15 -18 -5 0 -9 -5 -6 0 3 8 2 0 13 -1 2 0 10 -1 11 0 18 -14 8 0 8 10 -15 0 14 10 11 0 -5 -8 -13 0 7 1 8 0 17 8 5 0 5 -1 -9 0 4 6 -10 0 -11 -2 -14 0 -7 3 15 0 18 -6 11 0 -4 13 -16 0 16 6 -3 0 15 -16 2 0 -12 -6 -4 0 3 -1 14 0 -8 13 19 0 -7 16 10 0 -4 12 -6 0 -1 12 16 0 -3 -6 -18 0 -19 -13 -18 0 -12 19 -9 0 -18 -13 10 0 2 -19 16 0\n",
    1000,
    Wanted::Forgetting(
        &[
            (&[-18, -19], &[26, 79, 49, 29, 53]),
            (&[-15, 16], &[6, 11, 75]),
            (&[-4, -7, -13, -15], &[17, 21, 76, 61, 15, 43, 48]),
            (&[4, -10, -16, 18], &[52, 65, 23, 22, 80]),
            (&[4, -13, -16], &[7, 52, 86, 23, 24]),
            (&[-13, -15], &[84, 87, 17, 85, 5, 13, 31]),
            (
                &[13, 15],
                &[29, 39, 42, 45, 40, 74, 52, 69, 33, 57, 60, 75, 4, 5],
            ),
            (&[-4, 7, -13, 14], &[31, 51, 13, 38, 62, 60, 33]),
            (&[-4, 7, -13], &[90, 5, 19, 72, 28]),
            (&[7, -13], &[91, 30, 23, 52, 79]),
            (&[-3, 4, -13], &[92, 87, 70, 75, 78, 33, 52, 47]),
            (&[-4, 12, -13], &[92, 21, 76, 61, 15, 43, 48]),
            (&[15], &[89, 92, 67, 93, 94, 19, 72, 71, 70]),
            (&[16], &[95, 84]),
            (&[-13], &[95, 88]),
            (&[-4], &[96, 97, 69]),
            (&[-19], &[98, 52, 83]),
            (&[12], &[98, 99, 23]),
            (&[-8], &[97, 99, 74]),
            (&[7], &[98, 100, 30]),
            (&[-9], &[99, 100, 80]),
            (&[-10], &[99, 101, 47]),
            (&[], &[98, 103, 104, 36]),
        ],
        &[(11, &[85, 86])],
    ),
)];

fn many_1() -> &'static [Row<'static, &'static [u8]>] {
    &MANY_1
}

fn many_2() -> &'static [Row<'static, &'static [u8]>] {
    &MANY_2
}

fn lasting_1() -> &'static [Row<'static, &'static [u8]>] {
    &LASTING_1
}

fn lasting_2() -> &'static [Row<'static, &'static [u8]>] {
    &LASTING_2
}

/// Numbers so small that few conflicts come to all that the search does.
pub(crate) fn small_constants() -> Constants {
    Constants {
        first_step: 64,
        restarting_growth: 2,
        stable_growth: 3,
        greatest_step: 256,
        divisor: 4,
        window: 2,
        above: 2,
        apart: 2,
        mode_length: 2,
        round_length: 1,
        kept_glue: 1,
    }
}

/// The same, by which more clauses are kept, and rounds and modes are longer.
fn lasting_constants() -> Constants {
    Constants {
        first_step: 64,
        restarting_growth: 2,
        stable_growth: 3,
        greatest_step: 256,
        divisor: 4,
        window: 3,
        above: 3,
        apart: 2,
        mode_length: 4,
        round_length: 2,
        kept_glue: 2,
    }
}

/// Whether the root comes to what is wanted.
pub(crate) fn comes(
    alloc: Global,
    text: &[u8],
    budget: u32,
    constants: Constants,
    wanted: Wanted,
) -> Result<bool, Fail> {
    if budget < 1 || budget > 100_000 {
        return Ok(false);
    }
    let plan = Plan::focused_by(budget, constants);
    Ok(is_wanted(&cube_in(alloc, text, &[], plan)?, wanted)?)
}

#[test]
fn usual_numbers(rt: HostRuntime) -> Result<(), Fail> {
    for (name, text, budget, wanted) in &USUAL {
        let usual = Constants::default();
        let comes = comes(rt.alloc(), text.as_bytes(), *budget, usual, *wanted)?;
        assert!(rt; comes, "{name}");
    }
    Ok(())
}

#[test]
fn small_numbers(rt: HostRuntime) -> Result<(), Fail> {
    let tables = [many_1(), many_2()];
    for rows in tables {
        for (name, text, budget, wanted) in rows {
            let comes = comes(rt.alloc(), text, *budget, small_constants(), *wanted)?;
            assert!(rt; comes, "{name}");
        }
    }
    Ok(())
}

#[test]
fn lasting_numbers(rt: HostRuntime) -> Result<(), Fail> {
    let tables = [lasting_1(), lasting_2()];
    for rows in tables {
        for (name, text, budget, wanted) in rows {
            let comes = comes(rt.alloc(), text, *budget, lasting_constants(), *wanted)?;
            assert!(rt; comes, "{name}");
        }
    }
    Ok(())
}

fn is_usual(alloc: Global) -> Result<bool, Fail> {
    let outcome = outcome_by(alloc, FOUR, Plan::focused(1))?;
    Ok(is_wanted(&outcome, Wanted::ExhaustedOn(2))?)
}

#[test]
fn plan_of_the_usual_numbers(rt: HostRuntime) -> Result<(), Fail> {
    assert!(rt; is_usual(rt.alloc())?);
    Ok(())
}
