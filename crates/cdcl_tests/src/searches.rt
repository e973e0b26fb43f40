//! Worked searches of cubes, and the halves of a cube.
ghost use Rattle.std.specs.Prelude.{◌≡◌};

use crate::outcomes::{LEVEL_LEFT_OUT, Row, Wanted, WantedLine, comes, is_wanted};
use crate::pure;
use cdcl::{Plan, Search, Solver, split};
use cnf::{Formula, read_formula};
use std::alloc::{AllocError, Global};
use std::process::Abort;
use std::test::Fail;
use test_samples::{EIGHT, FOUR, TWO_MODELS, cube_of, has_var, reads};

// without the last clause the second variable would be pure, and no level left out
const NO_PURE_VARIABLE: &str = "p cnf 4 3\n1 3 4 0\n1 3 -4 0\n2 -2 0\n";

// all eight clauses over three variables: the root with four conflicts, and its halves with two
const ROOT_LINES: [WantedLine; 4] = [
    (&[1, 2], &[1, 2]),
    (&[1], &[9, 3, 4]),
    (&[2], &[10, 5, 6]),
    (&[], &[10, 11, 7, 8]),
];

const LEFT_LINES: [WantedLine; 2] = [(&[2], &[1, 2]), (&[], &[9, 3, 4])];

const RIGHT_LINES: [WantedLine; 2] = [(&[2], &[5, 6]), (&[], &[9, 7, 8])];

static ROWS: [Row; 29] = [
    ("no clause", "p cnf 0 0\n", &[], 1, Wanted::Model(&[])),
    (
        "an empty clause",
        "p cnf 0 1\n0\n",
        &[],
        1,
        Wanted::Refuted(&[(&[], &[1])]),
    ),
    (
        "two clauses of one literal",
        "p cnf 1 2\n1 0\n-1 0\n",
        &[],
        1,
        Wanted::Refuted(&[(&[], &[1, 2])]),
    ),
    (
        "the first model",
        "p cnf 2 1\n1 2 0\n",
        &[],
        1,
        Wanted::Model(&[false, true]),
    ),
    (
        "the first model beside a clause of both signs",
        "p cnf 2 2\n1 -1 0\n2 2 0\n",
        &[],
        1,
        Wanted::Model(&[false, true]),
    ),
    (
        "four, two conflicts",
        FOUR,
        &[],
        2,
        Wanted::Refuted(&[(&[1], &[1, 2]), (&[], &[5, 3, 4])]),
    ),
    ("four, one conflict", FOUR, &[], 1, Wanted::Exhausted),
    (
        "four, half -1",
        FOUR,
        &[-1],
        1,
        Wanted::Refuted(&[(&[], &[1, 2])]),
    ),
    (
        "four, half 1",
        FOUR,
        &[1],
        1,
        Wanted::Refuted(&[(&[], &[3, 4])]),
    ),
    (
        "a level left out, one conflict",
        LEVEL_LEFT_OUT,
        &[],
        1,
        Wanted::Exhausted,
    ),
    (
        "a level left out, two conflicts",
        LEVEL_LEFT_OUT,
        &[],
        2,
        Wanted::Model(&[false, false, true, false]),
    ),
    (
        "a level left out, no pure variable",
        NO_PURE_VARIABLE,
        &[],
        2,
        Wanted::Model(&[false, false, true, false]),
    ),
    (
        "eight, four conflicts",
        EIGHT,
        &[],
        4,
        Wanted::Refuted(&ROOT_LINES),
    ),
    ("eight, two conflicts", EIGHT, &[], 2, Wanted::Exhausted),
    (
        "eight, half -1 with two",
        EIGHT,
        &[-1],
        2,
        Wanted::Refuted(&LEFT_LINES),
    ),
    (
        "eight, half 1 with two",
        EIGHT,
        &[1],
        2,
        Wanted::Refuted(&RIGHT_LINES),
    ),
    ("eight, one conflict", EIGHT, &[], 1, Wanted::Exhausted),
    // a cube of one literal has two conflicts
    (
        "eight, half -1",
        EIGHT,
        &[-1],
        1,
        Wanted::Refuted(&LEFT_LINES),
    ),
    (
        "eight, half 1",
        EIGHT,
        &[1],
        1,
        Wanted::Refuted(&RIGHT_LINES),
    ),
    (
        "eight, cube 3",
        EIGHT,
        &[3],
        1,
        Wanted::Refuted(&[(&[1], &[2, 4]), (&[], &[9, 6, 8])]),
    ),
    (
        "eight, cube -1 -2",
        EIGHT,
        &[-1, -2],
        1,
        Wanted::Refuted(&[(&[], &[1, 2])]),
    ),
    (
        "eight, cube -1 2",
        EIGHT,
        &[-1, 2],
        1,
        Wanted::Refuted(&[(&[], &[3, 4])]),
    ),
    (
        "eight, cube 1 -2",
        EIGHT,
        &[1, -2],
        1,
        Wanted::Refuted(&[(&[], &[5, 6])]),
    ),
    (
        "eight, cube 1 2",
        EIGHT,
        &[1, 2],
        1,
        Wanted::Refuted(&[(&[], &[7, 8])]),
    ),
    ("two models", TWO_MODELS, &[], 1, Wanted::Exhausted),
    (
        "two models, cube -1 -2",
        TWO_MODELS,
        &[-1, -2],
        1,
        Wanted::Refuted(&[(&[], &[1, 2])]),
    ),
    (
        "two models, half -1",
        TWO_MODELS,
        &[-1],
        1,
        Wanted::Model(&[false, true, false]),
    ),
    (
        "two models, cube -1 2",
        TWO_MODELS,
        &[-1, 2],
        1,
        Wanted::Model(&[false, true, false]),
    ),
    (
        "two models, half 1",
        TWO_MODELS,
        &[1],
        1,
        Wanted::Model(&[true, true, false]),
    ),
];

fn all_come(rt: &impl Abort, alloc: Global, rows: &[Row]) -> Result<(), Fail> {
    for row in rows {
        assert!(rt; comes(alloc, row)?, "{}", row.0);
    }
    Ok(())
}

#[test]
fn cubes_by_themselves(rt: HostRuntime) -> Result<(), Fail> {
    all_come(&rt, rt.alloc(), &ROWS)?;
    all_come(&rt, rt.alloc(), &pure::ROWS)
}

/// A cube, and what it is to come to.
#[derive(Clone, Copy)]
struct Turn<'a> {
    cube: &'a [i32],
    wanted: Wanted<'a>,
}

/// Whether a cube comes to what is wanted, by a solver of the formula, which stays one.
fn comes_in_turn(
    alloc: Global,
    formula: &Formula,
    solver: &mut Solver,
    turn: &Turn,
) -> Result<bool, AllocError>
    requires { solver.old.formula.vars ≡ formula.now.vars }
    ensures { solver.new.formula.vars ≡ formula.now.vars }
{
    let cube = cube_of(alloc, formula.vars(), turn.cube)?;
    let outcome = solver.solve(&cube)?;
    is_wanted(&outcome, turn.wanted)
}

/// The place of the first cube, of a solver's cubes one after the other, that comes to something
/// else, if there is one.
fn first_failed(
    alloc: Global,
    formula: &Formula,
    solver: &mut Solver,
    turns: &[Turn],
) -> Result<Option<usize>, Fail>
    requires { solver.old.formula.vars ≡ formula.now.vars }
{
    'turns: for place in 0..turns.len() {
        if !comes_in_turn(alloc, formula, solver, &turns[place])? {
            return Ok(Some(place));
        }
    }
    Ok(None)
}

/// The same of a text, by a plan.
fn failed_turn(
    alloc: Global,
    text: &str,
    plan: Plan,
    turns: &[Turn],
) -> Result<Option<usize>, Fail> {
    let formula = read_formula(alloc, text.as_bytes())?;
    let mut solver = Solver::open(alloc, &formula, plan)?;
    first_failed(alloc, &formula, &mut solver, turns)
}

// the halves of the root come to what they come to by themselves
const LEFT_HALF: Turn = Turn {
    cube: &[-1],
    wanted: Wanted::Refuted(&LEFT_LINES),
};

const RIGHT_HALF: Turn = Turn {
    cube: &[1],
    wanted: Wanted::Refuted(&RIGHT_LINES),
};

const EXHAUSTED_ROOT: Turn = Turn {
    cube: &[],
    wanted: Wanted::Exhausted,
};

const REFUTED_ROOT: Turn = Turn {
    cube: &[],
    wanted: Wanted::Refuted(&ROOT_LINES),
};

const TURNS_OF_TWO: [Turn; 5] = [LEFT_HALF, RIGHT_HALF, EXHAUSTED_ROOT, LEFT_HALF, RIGHT_HALF];

const TURNS_OF_MORE: [Turn; 4] = [LEFT_HALF, REFUTED_ROOT, REFUTED_ROOT, RIGHT_HALF];

const REFUTED_QUARTER: Turn = Turn {
    cube: &[-1, -2],
    wanted: Wanted::Refuted(&[(&[], &[1, 2])]),
};

const SATISFIED_HALF: Turn = Turn {
    cube: &[-1],
    wanted: Wanted::Model(&[false, true, false]),
};

const ROOT_OF_TWO_MODELS: Turn = Turn {
    cube: &[],
    wanted: Wanted::Exhausted,
};

const TURNS_OF_TWO_MODELS: [Turn; 6] = [
    REFUTED_QUARTER,
    SATISFIED_HALF,
    ROOT_OF_TWO_MODELS,
    REFUTED_QUARTER,
    SATISFIED_HALF,
    ROOT_OF_TWO_MODELS,
];

// by the focused search the variable 3 is decided first
const LEFT_HALF_FOCUSED: Turn = Turn {
    cube: &[-1],
    wanted: Wanted::Refuted(&[(&[-3], &[2, 4]), (&[2], &[9, 1]), (&[], &[9, 10, 3])]),
};

const RIGHT_HALF_FOCUSED: Turn = Turn {
    cube: &[1],
    wanted: Wanted::Refuted(&[(&[-3], &[6, 8]), (&[2], &[9, 5]), (&[], &[9, 10, 7])]),
};

const ROOT_FOCUSED: Turn = Turn {
    cube: &[],
    wanted: Wanted::ExhaustedOn(3),
};

const TURNS_FOCUSED: [Turn; 5] = [
    LEFT_HALF_FOCUSED,
    ROOT_FOCUSED,
    RIGHT_HALF_FOCUSED,
    ROOT_FOCUSED,
    LEFT_HALF_FOCUSED,
];

/// A formula, a search, the root's budget, and cubes in turn.
type Turns = (&'static str, Search, u32, &'static [Turn<'static>]);

static TURNS: [Turns; 5] = [
    (EIGHT, Search::Ordered, 2, &TURNS_OF_TWO),
    (EIGHT, Search::Ordered, 4, &TURNS_OF_MORE),
    (EIGHT, Search::Ordered, 1000, &TURNS_OF_MORE),
    (EIGHT, Search::Focused, 2, &TURNS_FOCUSED),
    (TWO_MODELS, Search::Ordered, 1, &TURNS_OF_TWO_MODELS),
];

/// Whether one solver comes to what is wanted of all cubes.
fn comes_in_each(alloc: Global, turns: &Turns) -> Result<bool, Fail> {
    let (text, search, budget, turns) = *turns;
    if budget < 1 || budget > 100_000 {
        return Ok(false);
    }
    let plan = match search {
        Search::Ordered => Plan::ordered(budget),
        Search::Focused => Plan::focused(budget),
    };
    Ok(failed_turn(alloc, text, plan, turns)?.is_none())
}

#[test]
fn one_solver_for_all_cubes(rt: HostRuntime) -> Result<(), Fail> {
    for turns in &TURNS {
        assert!(rt; comes_in_each(rt.alloc(), turns)?, "budget {}", turns.2);
    }
    Ok(())
}

/// Whether a cube is split into its halves.
fn is_split(alloc: Global) -> Result<bool, Fail> {
    let cube = cube_of(alloc, 9, &[3, -1])?;
    if has_var(cube.lits(), 2) {
        return Ok(false);
    }
    let (left, right) = split(&cube, 2)?;
    Ok(reads(left.lits(), &[3, -1, -2]) && reads(right.lits(), &[3, -1, 2]))
}

#[test]
fn halves(rt: HostRuntime) -> Result<(), Fail> {
    assert!(rt; is_split(rt.alloc())?);
    Ok(())
}
