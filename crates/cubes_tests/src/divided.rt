//! Worked cubes of formulas that are divided by lookahead. What the first five come to is worked out
//! by hand, and what the others do is from a program of its own, which goes by the definition.
ghost use Rattle.std.specs.Prelude.{IfOk, IfSome, OnOk};
ghost use Rattle.theory.specs.Beginnings.{begun_by};
ghost use Rattle.cubes.specs.Division.{IsRootOf, IsSolverOf};

use crate::results::{HasLines, WantedLine};
use cdcl::{Outcome, Plan, Unkept, Unwatched};
use cnf::{Formula, read_formula};
use cubes::{CubeSolver, Root};
use kernel::Cube;
use lines::Row as LineRow;
use std::alloc::{AllocError, Global};
use std::test::Fail;
use test_samples::{FIVE, FOUR, cube_of, soon_stable};

/// What a cube is to come to.
#[derive(Clone, Copy)]
enum Wanted {
    ExhaustedOn(u32),
    Model(&'static [bool]),
    Refuted(&'static [WantedLine]),
}

/// A formula, a plan and a cube, and what that is to come to.
struct Row {
    name: &'static str,
    text: &'static str,
    budget: u32,
    divide: u32,
    cube: &'static [i32],
    wanted: Wanted,
}

static ROWS: [Row; 15] = [
    Row {
        name: "five, both literals of 2 fail",
        text: FIVE,
        budget: 2,
        divide: 2,
        cube: &[],
        wanted: Wanted::ExhaustedOn(2),
    },
    Row {
        name: "five, the half with the negation is searched",
        text: FIVE,
        budget: 2,
        divide: 2,
        cube: &[-2],
        wanted: Wanted::Refuted(&[(&[1], &[1]), (&[], &[13, 3])]),
    },
    Row {
        name: "five, the other half is looked at",
        text: FIVE,
        budget: 2,
        divide: 3,
        cube: &[2],
        wanted: Wanted::Refuted(&[(&[1], &[2]), (&[], &[13, 4])]),
    },
    Row {
        name: "four, refuted before it is asked",
        text: FOUR,
        budget: 2,
        divide: 2,
        cube: &[],
        wanted: Wanted::Refuted(&[(&[-2], &[2, 4]), (&[1], &[5, 1]), (&[], &[5, 6, 3])]),
    },
    // 33 fails, but 32 variables rank before it
    Row {
        name: "more candidates than are tried",
        text: "p cnf 36 42\n1 -2 0\n-1 2 0\n3 -4 0\n-3 4 0\n5 -6 0\n-5 6 0\n7 -8 0\n-7 8 0\n9 -10 0\n-9 10 0\n11 -12 0\n-11 12 0\n13 -14 0\n-13 14 0\n15 -16 0\n-15 16 0\n17 -18 0\n-17 18 0\n19 -20 0\n-19 20 0\n21 -22 0\n-21 22 0\n23 -24 0\n-23 24 0\n25 -26 0\n-25 26 0\n27 -28 0\n-27 28 0\n29 -30 0\n-29 30 0\n31 -32 0\n-31 32 0\n33 32 0\n33 -32 0\n34 35 36 0\n34 35 -36 0\n34 -35 36 0\n34 -35 -36 0\n-34 35 36 0\n-34 35 -36 0\n-34 -35 36 0\n-34 -35 -36 0\n",
        budget: 2,
        divide: 2,
        cube: &[],
        wanted: Wanted::ExhaustedOn(32),
    },
    Row {
        name: "refuted by a look",
        text: "p cnf 6 16\n3 -2 -5 0\n-6 -2 0\n3 4 -6 0\n-2 5 0\n-3 2 -6 0\n-5 -3 0\n1 -3 -6 0\n5 -4 6 0\n-3 4 2 0\n-1 -2 0\n2 3 0\n-5 3 0\n5 -2 -6 0\n3 -2 1 0\n-5 -1 6 0\n-1 6 0\n",
        budget: 2,
        divide: 8,
        cube: &[1],
        wanted: Wanted::Refuted(&[
            (&[-2], &[10]),
            (&[6], &[16]),
            (&[3], &[17, 11]),
            (&[], &[17, 18, 19, 5]),
        ]),
    },
    Row {
        name: "satisfied clauses count",
        text: "p cnf 6 16\n1 2 0\n4 1 0\n5 4 0\n-3 1 0\n2 -1 -3 0\n-6 3 4 0\n-6 3 -1 0\n2 -1 0\n2 4 -6 0\n4 5 2 0\n1 -2 4 0\n-3 -1 -6 0\n3 -2 0\n5 6 0\n-2 3 0\n-4 1 5 0\n",
        budget: 3,
        divide: 8,
        cube: &[-6],
        wanted: Wanted::ExhaustedOn(1),
    },
    Row {
        name: "fails on the left",
        text: "p cnf 6 16\n-3 -2 6 0\n3 -4 0\n-4 -6 -2 0\n-6 -5 2 0\n1 -3 5 0\n-5 3 1 0\n-4 -1 -3 0\n5 4 1 0\n4 -6 5 0\n-5 3 2 0\n-1 2 0\n4 1 -5 0\n6 5 0\n1 -3 4 0\n-5 4 0\n4 2 0\n",
        budget: 2,
        divide: 4,
        cube: &[],
        wanted: Wanted::ExhaustedOn(5),
    },
    Row {
        name: "fails on the right",
        text: "p cnf 6 16\n-4 -2 -3 0\n-4 6 -1 0\n-3 2 5 0\n-4 3 1 0\n-4 5 -2 0\n-4 1 2 0\n-5 -1 2 0\n1 6 -2 0\n5 6 -4 0\n1 -5 0\n-4 3 -6 0\n3 -5 0\n6 2 0\n-1 4 0\n-4 5 1 0\n-3 5 0\n",
        budget: 2,
        divide: 8,
        cube: &[],
        wanted: Wanted::ExhaustedOn(5),
    },
    Row {
        name: "not divisible",
        text: "p cnf 6 16\n-3 6 -2 0\n6 -4 0\n5 6 3 0\n3 -6 2 0\n-1 4 -6 0\n-1 -3 0\n1 6 2 0\n3 -5 6 0\n-1 -2 -4 0\n4 5 -1 0\n-3 -2 -6 0\n-6 5 4 0\n2 -5 0\n-3 2 0\n1 -2 -4 0\n6 -3 1 0\n",
        budget: 3,
        divide: 8,
        cube: &[],
        wanted: Wanted::ExhaustedOn(5),
    },
    Row {
        name: "equal worth",
        text: "p cnf 6 16\n-5 4 -6 0\n-3 4 5 0\n-2 -5 -3 0\n6 -5 -1 0\n4 6 5 0\n-6 2 0\n1 -3 2 0\n2 -4 6 0\n-5 3 -1 0\n3 -2 4 0\n-5 -3 1 0\n5 -3 -6 0\n-6 3 5 0\n-1 5 -6 0\n-5 -4 0\n-4 -3 -5 0\n",
        budget: 2,
        divide: 2,
        cube: &[],
        wanted: Wanted::ExhaustedOn(5),
    },
    Row {
        name: "a model by a look",
        text: "p cnf 6 16\n2 4 0\n-5 -1 6 0\n-6 2 4 0\n-3 -4 2 0\n-3 1 0\n-5 -1 0\n-1 -3 2 0\n4 3 -6 0\n-1 -5 0\n3 6 0\n-2 -1 -6 0\n-1 -5 -6 0\n3 6 2 0\n-2 3 0\n3 -4 2 0\n6 -4 -2 0\n",
        budget: 3,
        divide: 8,
        cube: &[-4],
        wanted: Wanted::Model(&[true, true, true, false, false, false]),
    },
    Row {
        name: "worth not by the sum",
        text: "p cnf 6 17\n5 -4 0\n-6 -5 3 0\n2 -6 4 0\n4 2 6 0\n-1 2 0\n-1 -4 -6 0\n-1 6 4 0\n2 -3 0\n3 -4 -2 0\n-3 -1 6 0\n-6 4 -3 0\n-1 4 -5 0\n-2 3 0\n-6 -1 4 0\n-5 -6 -4 0\n3 -1 -6 0\n-1 0\n",
        budget: 2,
        divide: 8,
        cube: &[],
        wanted: Wanted::ExhaustedOn(3),
    },
    Row {
        name: "worth not by the product",
        text: "p cnf 6 16\n5 -3 -1 0\n4 -2 6 0\n5 -4 3 0\n3 -4 6 0\n-3 1 -2 0\n-5 -2 6 0\n3 -1 0\n-4 3 2 0\n5 2 0\n2 6 5 0\n-6 -5 0\n-2 -5 0\n2 -4 -3 0\n3 5 -4 0\n4 -6 1 0\n4 1 6 0\n",
        budget: 2,
        divide: 8,
        cube: &[],
        wanted: Wanted::ExhaustedOn(1),
    },
    Row {
        name: "searched and exhausted",
        text: "p cnf 9 32\n2 6 -1 0\n-1 -3 0\n-6 1 -5 0\n-5 9 -1 0\n-6 5 7 0\n5 3 9 0\n1 -5 6 0\n-5 -4 -9 0\n-3 -2 5 0\n-7 1 -5 0\n-5 3 0\n-9 -2 4 0\n-1 -4 -7 0\n-1 6 -8 0\n2 -7 -5 0\n-5 1 0\n-6 4 9 0\n-2 5 1 0\n9 5 -1 0\n-3 4 0\n-7 -2 6 0\n5 8 2 0\n-1 2 0\n-9 6 0\n4 -3 -6 0\n4 7 0\n1 6 -9 0\n2 1 0\n-8 -4 0\n2 -5 -3 0\n-7 -9 8 0\n3 -7 4 0\n",
        budget: 2,
        divide: 2,
        cube: &[-8],
        wanted: Wanted::ExhaustedOn(6),
    },
];

fn is_wanted(outcome: &Outcome<LineRow>, wanted: Wanted) -> Result<bool, AllocError> {
    match (outcome, wanted) {
        (Outcome::Exhausted(var), Wanted::ExhaustedOn(wanted)) => Ok(*var == wanted),
        (Outcome::Model(values), Wanted::Model(wanted)) => Ok(values.as_slice() == wanted),
        (Outcome::Refuted(row), Wanted::Refuted(lines)) => row.has_lines(lines),
        _ => Ok(false),
    }
}

/// The variable that the cube without literals is split on, if it is, and what other solvers may be
/// told of that.
fn root_of(
    alloc: Global,
    formula: &Formula,
    plan: Plan,
    solver: &mut CubeSolver,
) -> Result<Option<(u32, Root)>, AllocError>
    requires { IsSolverOf (begun_by plan.search formula.now) plan solver.old }
    ensures solver { OnOk result (IsSolverOf (begun_by plan.search formula.now) plan solver.new) }
    ensures root { IfOk result (λ r. IfSome r (λ p. IsRootOf (begun_by plan.search formula.now) plan p.1)) }
{
    let Outcome::Exhausted(var) = solver.solve::<Unkept, _>(plan, &Cube::root(alloc), &Unwatched)?
    else {
        return Ok(None);
    };
    let root = solver.root(var);
    Ok(Some((var, root)))
}

/// How many conflicts a solver has in the row's cube.
fn conflicts_in(
    alloc: Global,
    formula: &Formula,
    plan: Plan,
    solver: &mut CubeSolver,
    row: &Row,
) -> Result<u64, AllocError>
    requires { IsSolverOf (begun_by plan.search formula.now) plan solver.old }
{
    let before = solver.counts().conflicts;
    let cube = cube_of(alloc, formula.vars(), row.cube)?;
    solver.solve::<Unkept, _>(plan, &cube, &Unwatched)?;
    Ok(solver.counts().conflicts.saturating_sub(before))
}

/// Whether a solver of the formula comes to what is wanted of the row's cube.
fn solves(
    alloc: Global,
    formula: &Formula,
    plan: Plan,
    solver: &mut CubeSolver,
    row: &Row,
) -> Result<bool, AllocError>
    requires { IsSolverOf (begun_by plan.search formula.now) plan solver.old }
{
    let cube = cube_of(alloc, formula.vars(), row.cube)?;
    let outcome = solver.solve(plan, &cube, &Unwatched)?;
    is_wanted(&outcome, row.wanted)
}

/// Whether a solver that is told that the cube without literals is split on a variable has the same
/// outcome of it, for nothing, and what is wanted of the row's cube, for this many conflicts at
/// most.
fn goes_on(
    alloc: Global,
    formula: &Formula,
    plan: Plan,
    told: &mut CubeSolver,
    row: &Row,
    known: (u32, u64),
) -> Result<bool, AllocError>
    requires { IsSolverOf (begun_by plan.search formula.now) plan told.old }
{
    let (var, most) = known;
    let split = root_of(alloc, formula, plan, told)?;
    if !matches!(split, Some((same, _)) if same == var) || told.counts().conflicts != 0 {
        return Ok(false);
    }
    Ok(solves(alloc, formula, plan, told, row)? && told.counts().conflicts <= most)
}

/// Whether a solver that is told what another one found out of the cube without literals has the
/// same outcome of it, for nothing, and of this cube, for no more conflicts than that one.
fn is_told(alloc: Global, formula: &Formula, plan: Plan, row: &Row) -> Result<bool, AllocError> {
    let mut first = CubeSolver::open(alloc, formula, plan, Root::Unknown, true)?;
    let Some((var, root)) = root_of(alloc, formula, plan, &mut first)? else {
        return Ok(false);
    };
    let mut told = CubeSolver::open(alloc, formula, plan, root, true)?;
    let most = conflicts_in(alloc, formula, plan, &mut first, row)?;
    goes_on(alloc, formula, plan, &mut told, row, (var, most))
}

/// The plan of a row with these numbers.
fn plan_of(budget: u32, divide: u32) -> Option<Plan> {
    if budget < 1 || budget > 100_000 || divide > 65_536 {
        return None;
    }
    Some(Plan::focused_by(budget, soon_stable()).divided(divide))
}

fn comes_told(alloc: Global, row: &Row) -> Result<bool, Fail> {
    let Some(plan) = plan_of(row.budget, row.divide) else {
        return Ok(false);
    };
    let formula = read_formula(alloc, row.text.as_bytes())?;
    Ok(is_told(alloc, &formula, plan, row)?)
}

/// Whether the row's cube comes to what is wanted.
fn comes(alloc: Global, row: &Row) -> Result<bool, Fail> {
    let Some(plan) = plan_of(row.budget, row.divide) else {
        return Ok(false);
    };
    let formula = read_formula(alloc, row.text.as_bytes())?;
    let mut solver = CubeSolver::open(alloc, &formula, plan, Root::Unknown, true)?;
    Ok(solves(alloc, &formula, plan, &mut solver, row)?)
}

/// These rows. The proof of a function that names a table goes through all of its parts, so that this
/// one names nothing else (docs/PROVING.md).
fn rows() -> &'static [Row] {
    &ROWS
}

#[test]
fn divided_formulas(rt: HostRuntime) -> Result<(), Fail> {
    for row in rows() {
        assert!(rt; comes(rt.alloc(), row)?, "{}", row.name);
    }
    Ok(())
}

/// The places of rows whose formula has a split at its root.
static TOLD: [usize; 4] = [1, 2, 8, 9];

/// Whether such a row's cube comes to what is wanted by a solver that is told of the split.
fn comes_told_at(alloc: Global, place: usize) -> Result<bool, Fail> {
    match rows().get(place) {
        Some(row) => comes_told(alloc, row),
        None => Ok(false),
    }
}

/// Whether one solver has two conflicts in its first search and one in each look, and no more in the
/// same cube again.
fn asks_once(alloc: Global) -> Result<bool, Fail> {
    let formula = read_formula(alloc, FIVE.as_bytes())?;
    let plan = Plan::focused_by(2, soon_stable()).divided(2);
    let mut solver = CubeSolver::open(alloc, &formula, plan, Root::Unknown, true)?;
    let first = root_of(alloc, &formula, plan, &mut solver)?;
    let again = root_of(alloc, &formula, plan, &mut solver)?;
    let same = first == Some((2, Root::LookedAt(2))) && again == first;
    Ok(same && solver.counts().conflicts == 4)
}

#[test]
fn solvers_that_are_told_and_one_that_asks_once(rt: HostRuntime) -> Result<(), Fail> {
    for place in &TOLD {
        assert!(rt; comes_told_at(rt.alloc(), *place)?, "row {place}");
    }
    assert!(rt; asks_once(rt.alloc())?);
    Ok(())
}
