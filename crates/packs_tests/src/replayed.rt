//! Lines of cubes, and whether they replay: by one replayer, cube after cube.
ghost use Rattle.std.specs.Prelude.{◌≡◌};

use cnf::{Formula, Lit, read_formula};
use lines::Row;
use packs::Replayer;
use std::alloc::{AllocError, Global};
use std::test::Fail;
use test_samples::cube_of;

/// A line's clause, its hints, and what it forgets.
type Line<'a> = (&'a [i32], &'a [u64], &'a [u64]);

/// A name, a cube, its lines, and whether they replay.
type Case<'a> = (&'a str, &'a [i32], &'a [Line<'a>], bool);

/// All four clauses over two variables; a cube's own lines have the numbers from 5 on.
static FOUR: &str = "p cnf 2 4\n1 2 0\n1 -2 0\n-1 2 0\n-1 -2 0\n";

static OF_FOUR: [Case; 28] = [
    (
        "refuted",
        &[],
        &[(&[1], &[1, 2], &[]), (&[], &[5, 3, 4], &[])],
        true,
    ),
    (
        "refuted again",
        &[],
        &[(&[1], &[1, 2], &[]), (&[], &[5, 3, 4], &[])],
        true,
    ),
    (
        "another line",
        &[],
        &[(&[-2], &[2, 4], &[]), (&[], &[5, 1, 3], &[])],
        true,
    ),
    ("in a cube", &[1], &[(&[], &[3, 4], &[])], true),
    ("in the other half", &[-1], &[(&[], &[1, 2], &[])], true),
    (
        "lines of the other half",
        &[-1],
        &[(&[], &[3, 4], &[])],
        false,
    ),
    (
        "a clause that is false at once",
        &[1, 2],
        &[(&[], &[4], &[])],
        true,
    ),
    (
        "lines of a cube before",
        &[],
        &[(&[], &[5, 3, 4], &[])],
        false,
    ),
    ("no lines", &[1, 2], &[], false),
    ("no empty clause", &[], &[(&[1], &[1, 2], &[])], false),
    (
        "an empty clause before the last",
        &[1],
        &[(&[], &[3, 4], &[]), (&[2], &[3], &[])],
        false,
    ),
    ("no hints", &[1], &[(&[], &[], &[])], false),
    ("no conflict", &[1], &[(&[], &[3], &[])], false),
    (
        "a hint behind the conflict",
        &[1],
        &[(&[], &[3, 4, 1], &[])],
        false,
    ),
    ("a hint that isn't unit", &[], &[(&[], &[1, 2], &[])], false),
    ("a hint to itself", &[1], &[(&[], &[5], &[])], false),
    (
        "a hint without a clause",
        &[1],
        &[(&[], &[9_223_372_036_854_775_807], &[])],
        false,
    ),
    (
        "a variable beyond the formula's",
        &[1],
        &[(&[3], &[3, 4], &[]), (&[], &[3, 4], &[])],
        false,
    ),
    (
        "both signs",
        &[1],
        &[(&[2, -2], &[3], &[]), (&[], &[3, 4], &[])],
        false,
    ),
    (
        "a line is forgotten",
        &[],
        &[
            (&[1], &[1, 2], &[]),
            (&[-2], &[2, 4], &[5]),
            (&[], &[6, 1, 3], &[]),
        ],
        true,
    ),
    (
        "two lines are forgotten",
        &[],
        &[
            (&[1], &[1, 2], &[]),
            (&[-2], &[2, 4], &[]),
            (&[-2], &[2, 4], &[6, 5]),
            (&[], &[7, 1, 3], &[]),
        ],
        true,
    ),
    (
        "a hint to a forgotten line",
        &[],
        &[
            (&[1], &[1, 2], &[]),
            (&[-2], &[2, 4], &[5]),
            (&[], &[5, 3, 4], &[]),
        ],
        false,
    ),
    (
        "a line that forgets itself",
        &[],
        &[
            (&[1], &[1, 2], &[]),
            (&[-2], &[2, 4], &[6]),
            (&[], &[5, 3, 4], &[]),
        ],
        false,
    ),
    (
        "a line that forgets one behind it",
        &[],
        &[
            (&[1], &[1, 2], &[6]),
            (&[-2], &[2, 4], &[]),
            (&[], &[5, 3, 4], &[]),
        ],
        false,
    ),
    (
        "a forgotten clause of the formula",
        &[],
        &[(&[1], &[1, 2], &[1]), (&[], &[5, 3, 4], &[])],
        false,
    ),
    (
        "a line forgotten twice at once",
        &[],
        &[
            (&[1], &[1, 2], &[]),
            (&[-2], &[2, 4], &[5, 5]),
            (&[], &[6, 1, 3], &[]),
        ],
        false,
    ),
    (
        "a line forgotten again",
        &[],
        &[
            (&[1], &[1, 2], &[]),
            (&[-2], &[2, 4], &[5]),
            (&[-2], &[2, 4], &[5]),
            (&[], &[6, 1, 3], &[]),
        ],
        false,
    ),
    (
        "a last line that forgets",
        &[],
        &[(&[1], &[1, 2], &[]), (&[], &[5, 3, 4], &[5])],
        false,
    ),
];

/// The pure variables are 2 and 3, with unit clauses of the numbers 3 and 4.
static PURE: &str = "p cnf 3 2\n-3 1 0\n-3 -1 0\n";

static OF_PURE: [Case; 7] = [
    ("by a pure variable", &[3], &[(&[], &[4], &[])], true),
    ("by one that no clause has", &[2], &[(&[], &[3], &[])], true),
    ("by the clauses", &[3], &[(&[], &[1, 2], &[])], true),
    ("by the unit of another", &[3], &[(&[], &[3], &[])], false),
    (
        "a line's own number",
        &[3],
        &[(&[1], &[1], &[]), (&[], &[5, 2], &[])],
        true,
    ),
    (
        "a line behind the units is forgotten",
        &[3],
        &[(&[1], &[1], &[]), (&[1], &[1], &[5]), (&[], &[6, 2], &[])],
        true,
    ),
    (
        "a forgotten unit",
        &[3],
        &[(&[1], &[1], &[4]), (&[], &[5, 2], &[])],
        false,
    ),
];

/// The literals of these numbers.
fn clause_of(alloc: Global, numbers: &[i32]) -> Result<Vec<Lit>, AllocError> {
    let mut clause = Vec::new(alloc);
    for number in numbers {
        if let Some(lit) = Lit::new(*number) {
            clause.push(lit)?;
        }
    }
    Ok(clause)
}

/// The row of these lines.
fn row_of(alloc: Global, lines: &[Line]) -> Result<Row, AllocError> {
    let mut row = Row::new(alloc);
    for (numbers, hints, forgets) in lines {
        row.push(&clause_of(alloc, numbers)?, hints, forgets)?;
    }
    Ok(row)
}

/// Whether a case's lines replay, by a replayer of the formula.
fn replays(
    alloc: Global,
    replayer: &mut Replayer,
    formula: &Formula,
    case: &Case,
) -> Result<bool, AllocError>
    requires { replayer.old.vars ≡ formula.now.vars }
    ensures { replayer.new ≡ replayer.old }
{
    let (_, numbers, lines, _) = *case;
    let cube = cube_of(alloc, formula.vars(), numbers)?;
    let row = row_of(alloc, lines)?;
    let answer = replayer.replays(formula, &cube, &row)?;
    Ok(answer)
}

/// The name of the first case that comes to something else, by one replayer of the formula.
fn first_of<'a>(
    alloc: Global,
    formula: &Formula,
    cases: &[Case<'a>],
) -> Result<Option<&'a str>, Fail> {
    let units = formula.pure(alloc)?;
    let mut replayer = Replayer::open(alloc, formula, units)?;
    for case in cases {
        if replays(alloc, &mut replayer, formula, case)? != case.3 {
            return Ok(Some(case.0));
        }
    }
    Ok(None)
}

/// The same, of the formula of a text.
fn first_other<'a>(alloc: Global, text: &str, cases: &[Case<'a>]) -> Result<Option<&'a str>, Fail> {
    let formula = read_formula(alloc, text.as_bytes())?;
    first_of(alloc, &formula, cases)
}

#[test]
fn lines_replay_or_not(rt: HostRuntime) -> Result<(), Fail> {
    assert_eq!(rt; first_other(rt.alloc(), FOUR, &OF_FOUR)?, None);
    Ok(())
}

#[test]
fn units_of_pure_variables_have_numbers(rt: HostRuntime) -> Result<(), Fail> {
    assert_eq!(rt; first_other(rt.alloc(), PURE, &OF_PURE)?, None);
    Ok(())
}
