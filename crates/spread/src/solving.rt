//! Solving cubes, one after the other, with what is said of them.
ghost use Rattle.std.specs.Prelude.{IfOk, OnOk, MatchOption};
ghost use Rattle.theory.specs.Beginnings.{begun_by};
ghost use Rattle.theory.specs.Truth.{IsOver};
ghost use Rattle.cubes.specs.Division.{IsSolverOf};
ghost use Rattle.spread.specs.Solving.{IsSaidOf};

use cdcl::Plan;
use cnf::Formula;
use cubes::{CubeSolver, Gate, Watched};
use gathering::fact_of;
use kernel::Cube;
use packs::{Fact, is_over};
use std::alloc::AllocError;

/// Solves a cube, and answers what is said of it: of one that isn't over the formula's variables,
/// nothing. It fails where a request for memory is refused, or the gate stops it.
pub(crate) fn solve<G: Gate>(
    formula: &Formula,
    plan: Plan,
    solver: &mut CubeSolver,
    cube: Cube,
    watched: &Watched<'_, G>,
) -> Result<Option<Fact>, AllocError>
    requires solver { IsSolverOf (begun_by plan.search formula.now) plan solver.old }
    ensures solver { OnOk result (IsSolverOf (begun_by plan.search formula.now) plan solver.new) }
    ensures said { IfOk result (λ said. MatchOption said (¬ (IsOver formula.now.vars cube)) (IsSaidOf formula.now plan cube)) }
{
    if !is_over(formula.vars(), cube.lits()) {
        return Ok(None);
    }
    watched.gate.before(watched.hand, &cube);
    let outcome = solver.solve(plan, &cube, watched);
    watched.gate.after(watched.hand, &cube);
    Ok(Some(fact_of(cube, outcome?)))
}
