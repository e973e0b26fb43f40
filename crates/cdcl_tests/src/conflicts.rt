//! Worked conflicts: the clause that each teaches, its hints, and the level to go back to.
use crate::kernels::{says, taught};
use crate::outcomes::LEVEL_LEFT_OUT;
use std::alloc::Global;
use std::test::Fail;
use test_samples::{EIGHT, FOUR};

const FIVE: &str = "p cnf 2 5\n1 2 0\n1 -2 0\n-1 2 0\n-1 -2 0\n1 0\n";

// the clauses learnt so far stand behind the eight
const NINE: &str =
    "p cnf 3 9\n1 2 3 0\n1 2 -3 0\n1 -2 3 0\n1 -2 -3 0\n-1 2 3 0\n-1 2 -3 0\n-1 -2 3 0\n-1 -2 -3 0\n1 2 0\n";

const TEN: &str =
    "p cnf 3 10\n1 2 3 0\n1 2 -3 0\n1 -2 3 0\n1 -2 -3 0\n-1 2 3 0\n-1 2 -3 0\n-1 -2 3 0\n-1 -2 -3 0\n1 2 0\n1 0\n";

const ELEVEN: &str =
    "p cnf 3 11\n1 2 3 0\n1 2 -3 0\n1 -2 3 0\n1 -2 -3 0\n-1 2 3 0\n-1 2 -3 0\n-1 -2 3 0\n-1 -2 -3 0\n1 2 0\n1 0\n2 0\n";

// what a half learns stands behind the eight
const NINE_OF_A_HALF: &str =
    "p cnf 3 9\n1 2 3 0\n1 2 -3 0\n1 -2 3 0\n1 -2 -3 0\n-1 2 3 0\n-1 2 -3 0\n-1 -2 3 0\n-1 -2 -3 0\n2 0\n";

/// A name, a formula, a cube, how many decisions come before the conflict, and its number.
type Place<'a> = (&'a str, &'a str, &'a [i32], u32, u64);

/// The clause that a conflict teaches, its hints, and the level to go back to.
type Lesson<'a> = (&'a [i32], &'a [u64], u32);

static ROWS: [(Place, Lesson); 11] = [
    (
        ("two variables, first", FOUR, &[], 1, 2),
        (&[1], &[1, 2], 0),
    ),
    (
        ("two variables, second", FIVE, &[], 0, 4),
        (&[], &[5, 3, 4], 0),
    ),
    (
        ("a level left out", LEVEL_LEFT_OUT, &[], 3, 2),
        (&[1, 3], &[1, 2], 1),
    ),
    (
        ("three variables, first", EIGHT, &[], 2, 2),
        (&[1, 2], &[1, 2], 1),
    ),
    (
        ("three variables, second", NINE, &[], 1, 4),
        (&[1], &[9, 3, 4], 0),
    ),
    (
        ("three variables, third", TEN, &[], 1, 6),
        (&[2], &[10, 5, 6], 0),
    ),
    (
        ("three variables, fourth", ELEVEN, &[], 0, 8),
        (&[], &[10, 11, 7, 8], 0),
    ),
    // literals of the cube are left out
    (("half -1, first", EIGHT, &[-1], 1, 2), (&[2], &[1, 2], 0)),
    (
        ("half -1, second", NINE_OF_A_HALF, &[-1], 0, 4),
        (&[], &[9, 3, 4], 0),
    ),
    (("half 1, first", EIGHT, &[1], 1, 6), (&[2], &[5, 6], 0)),
    (
        ("half 1, second", NINE_OF_A_HALF, &[1], 0, 8),
        (&[], &[9, 7, 8], 0),
    ),
];

fn teaches(alloc: Global, place: Place, lesson: Lesson) -> Result<bool, Fail> {
    let (_, text, cube, decisions, conflict) = place;
    let (clause, hints, level) = lesson;
    Ok(says(
        taught(alloc, text, cube, decisions, conflict)?,
        clause,
        hints,
        level,
    ))
}

#[test]
fn conflicts_teach(rt: HostRuntime) -> Result<(), Fail> {
    for (place, lesson) in &ROWS {
        assert!(rt; teaches(rt.alloc(), *place, *lesson)?, "{}", place.0);
    }
    Ok(())
}
