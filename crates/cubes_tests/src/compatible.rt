//! The calls with a budget in place of a plan, each on a worked row: the tree of the eight clauses.
ghost use Rattle.std.specs.Prelude.{◌≤◌};

use crate::results::{OF_EIGHT, is_tree};
use cdcl::solve_cube;
use cnf::{Formula, read_formula};
use cubes::{OpenGate, Solved, Tree, What, gather, solve_one, solve_with};
use std::alloc::{AllocError, Global};
use std::sync::Wait;
use std::test::Fail;
use std::thread::Threads;
use std::time::Clock;
use test_samples::{EIGHT, cube_of};

/// The tree that is gathered from the result of one of its cubes.
fn gathered(alloc: Global, formula: &Formula) -> Result<Tree, AllocError> {
    let cube = cube_of(alloc, formula.vars(), &[1])?;
    let what = What::Done(solve_cube(alloc, formula, &cube, 1)?);
    let mut results = Vec::new(alloc);
    results.push(Solved { cube, what })?;
    gather(alloc, formula, 1, results)
}

/// Whether it is the tree that is wanted, and so are those of a search alone and of two hands.
fn are_wanted<R: Threads + Wait + Clock + Sync>(rt: &R, alloc: Global) -> Result<bool, Fail> {
    let formula = read_formula(alloc, EIGHT.as_bytes())?;
    let is_gathered = is_tree(&gathered(alloc, &formula)?, OF_EIGHT)?;
    let is_alone = is_tree(&solve_one(alloc, &formula, 1)?, OF_EIGHT)?;
    let by_two = solve_with(rt, alloc, &formula, 1, 2, &OpenGate)?;
    Ok(is_gathered && is_alone && is_tree(&by_two, OF_EIGHT)?)
}

#[test]
fn trees_by_a_budget(rt: HostRuntime) -> Result<(), Fail> {
    assert!(rt; are_wanted(&rt, rt.alloc())?);
    Ok(())
}
