//! What cubes are to come to.
use cdcl::{Outcome, Plan, Solver};
use cnf::read_formula;
use lines::Row as LineRow;
use std::alloc::{AllocError, Global};
use std::test::Fail;
use test_samples::{cube_of, reads};

// the first conflict leaves out a level
pub const LEVEL_LEFT_OUT: &str = "p cnf 4 2\n1 3 4 0\n1 3 -4 0\n";

/// A line's clause and its hints.
pub type WantedLine<'a> = (&'a [i32], &'a [u64]);

/// The place of a line, from 0 on, and the numbers of the clauses that are forgotten behind it.
pub type WantedForgets<'a> = (usize, &'a [u64]);

/// What a cube is to come to.
#[derive(Clone, Copy)]
pub enum Wanted<'a> {
    /// Nothing but the variable to split on, which is the first.
    Exhausted,
    /// Nothing but the variable to split on.
    ExhaustedOn(u32),
    Model(&'a [bool]),
    /// By lines that forget nothing.
    Refuted(&'a [WantedLine<'a>]),
    /// By lines behind some of which clauses are forgotten.
    Forgetting(&'a [WantedLine<'a>], &'a [WantedForgets<'a>]),
}

/// The outcome of a cube, by a plan.
pub fn cube_by(
    alloc: Global,
    text: &str,
    cube: &[i32],
    plan: Plan,
) -> Result<Outcome<LineRow>, Fail> {
    cube_in(alloc, text.as_bytes(), cube, plan)
}

/// The outcome of a cube of the formula in these bytes, by a plan.
pub fn cube_in(
    alloc: Global,
    text: &[u8],
    cube: &[i32],
    plan: Plan,
) -> Result<Outcome<LineRow>, Fail> {
    let formula = read_formula(alloc, text)?;
    let cube = cube_of(alloc, formula.vars(), cube)?;
    let mut solver = Solver::open(alloc, &formula, plan)?;
    Ok(solver.solve(&cube)?)
}

/// The outcome of the root, by a plan.
pub fn outcome_by(alloc: Global, text: &str, plan: Plan) -> Result<Outcome<LineRow>, Fail> {
    cube_by(alloc, text, &[], plan)
}

fn has_lines(row: &LineRow, wanted: &[WantedLine]) -> Result<bool, AllocError> {
    let mut lines = row.lines();
    let mut clause = Vec::new(row.allocator());
    let mut hints = Vec::new(row.allocator());
    let mut forgets = Vec::new(row.allocator());
    for want in wanted {
        let is_there = lines.next(&mut clause, &mut hints, &mut forgets)?;
        if !is_there || !reads(&clause, want.0) || hints.as_slice() != want.1 {
            return Ok(false);
        }
    }
    Ok(lines.len() == 0)
}

/// The numbers of the clauses that are forgotten behind the line at this place, if it is wanted.
fn forgotten_at<'a>(wanted: &[WantedForgets<'a>], place: usize) -> &'a [u64] {
    for (at, numbers) in wanted {
        if *at == place {
            return numbers;
        }
    }
    &[]
}

fn forgets_just(row: &LineRow, wanted: &[WantedForgets]) -> Result<bool, AllocError> {
    let mut lines = row.lines();
    let mut clause = Vec::new(row.allocator());
    let mut hints = Vec::new(row.allocator());
    let mut forgets = Vec::new(row.allocator());
    for place in 0..row.len() {
        lines.next(&mut clause, &mut hints, &mut forgets)?;
        if forgets.as_slice() != forgotten_at(wanted, place) {
            return Ok(false);
        }
    }
    Ok(true)
}

pub fn is_wanted(outcome: &Outcome<LineRow>, wanted: Wanted) -> Result<bool, AllocError> {
    match (outcome, wanted) {
        (Outcome::Exhausted(var), Wanted::Exhausted) => Ok(*var == 1),
        (Outcome::Exhausted(var), Wanted::ExhaustedOn(wanted)) => Ok(*var == wanted),
        (Outcome::Model(values), Wanted::Model(wanted)) => Ok(&values[..] == wanted),
        (Outcome::Refuted(row), Wanted::Refuted(lines)) => {
            Ok(has_lines(row, lines)? && forgets_just(row, &[])?)
        }
        (Outcome::Refuted(row), Wanted::Forgetting(lines, forgets)) => {
            Ok(has_lines(row, lines)? && forgets_just(row, forgets)?)
        }
        _ => Ok(false),
    }
}

/// A name, a formula, a cube, the root's budget, and what the cube is to come to.
pub type Row<'a> = (&'a str, &'a str, &'a [i32], u32, Wanted<'a>);

/// Whether a row's cube, by itself, comes to what is wanted.
pub fn comes(alloc: Global, row: &Row) -> Result<bool, Fail> {
    let (_, text, cube, budget, wanted) = *row;
    if budget < 1 || budget > 100_000 {
        return Ok(false);
    }
    let found = cube_by(alloc, text, cube, Plan::ordered(budget))?;
    Ok(is_wanted(&found, wanted)?)
}
