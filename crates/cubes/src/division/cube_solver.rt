//! The solver of a formula's cubes by a plan, with the division that the plan may want.
ghost use Rattle.std.specs.Prelude.{[], IfOk, OnOk};
ghost use Rattle.theory.specs.Truth.{Formula, IsOver};
ghost use Rattle.theory.specs.Plans as plans;
ghost use Rattle.theory.specs.Search.{exhausted};
ghost use Rattle.theory.specs.Runs.{Runs};
ghost use Rattle.theory.specs.Results.{OutcomeSays};
ghost use Rattle.theory.specs.Beginnings.{begun_by};
ghost use Rattle.cdcl.specs.Outcome.{outcome_by};
ghost use Rattle.cubes.specs.Division.{IsRootOf, IsSolverOf};

use crate::division::dividing::DividingSearch;
use crate::division::first_search::DivisionWatcher;
use crate::division::root::Root;
use cdcl::{Counts, KeepsLines, Outcome, Plan, Search, Solver, budget_of};
use cnf::Formula;
use kernel::Cube;
use std::alloc::{AllocError, Global};

/// Solves cubes of one formula by one plan. Where the plan wants a division, the first cube of few
/// literals is preceded by a search of up to 20,000 conflicts, which says whether the formula is
/// divided. The ordered search divides none. After an error it is of no more use.
#[derive(Drop)]
pub enum CubeSolver {
    Ordered(Solver),
    Focused(DividingSearch),
}

impl CubeSolver {
    /// A solver of a formula by a plan, with what is known of the cube without literals: that isn't
    /// searched again. It keeps the lines of a cube while it searches that, or doesn't. It takes time and memory by the formula's literals and variables, and fails
    /// where that is refused.
    pub fn open(
        alloc: Global,
        formula: &Formula,
        plan: Plan,
        root: Root,
        keeps: bool,
    ) -> Result<CubeSolver, AllocError>
        requires { IsRootOf (begun_by plan.search formula.now) plan root }
        ensures { IfOk result (IsSolverOf (begun_by plan.search formula.now) plan) }
    {
        match plan.search() {
            Search::Ordered => Ok(CubeSolver::Ordered(Solver::keeping(
                alloc, formula, plan, keeps,
            )?)),
            Search::Focused => {
                let search = DividingSearch::open(alloc, formula, plan, root, keeps)?;
                Ok(CubeSolver::Focused(search))
            }
        }
    }

    /// The outcome of a cube over the formula's variables, by the plan: whatever cubes came before,
    /// it is the same. A watcher is told what is done. It fails where a request for memory is refused
    /// or the watcher stops it, and where lines are asked for that it doesn't keep.
    pub fn solve<L: KeepsLines, W: DivisionWatcher>(
        &mut self,
        plan: Plan,
        cube: &Cube,
        watcher: &W,
    ) -> Result<Outcome<L>, AllocError>
        requires { (F : Formula) × IsSolverOf F plan self.old × IsOver F.vars cube.now }
        ensures runs { IfOk result (λ o. (F : Formula) → IsSolverOf F plan self.old → Runs F plan cube.now (outcome_by L.lines o)) }
        ensures says { IfOk result (λ o. (F : Formula) → IsSolverOf F plan self.old → IsOver F.vars cube.now → OutcomeSays plan.search F cube.now (outcome_by L.lines o)) }
        ensures kept { OnOk result ((F : Formula) → IsSolverOf F plan self.old → IsSolverOf F plan self.new) }
    {
        match self {
            CubeSolver::Ordered(solver) => solver.solve_as(cube, watcher),
            CubeSolver::Focused(search) => {
                let _trail = search.search.kernel.trail(); // it ensures what the clauses are over
                let lits = cube.lits(); // it ensures that they are distinct
                if watcher.stops() {
                    return Err(AllocError);
                }
                let found = search.solve(cube, budget_of(&plan, lits.len()), watcher)?;
                let outcome = found.kept(search.search.allocator())?;
                watcher.counted(search.search.counts());
                Ok(outcome)
            }
        }
    }

    /// What other solvers may be told of the cube without literals, which was found to be split on
    /// this variable.
    pub fn root(&self, var: u32) -> Root
        ensures { (F : Formula) (plan : plans.Plan) → IsSolverOf F plan self.now → Runs F plan [] (exhausted var) → IsRootOf F plan result }
    {
        match self {
            CubeSolver::Ordered(_) => Root::Searched(var),
            CubeSolver::Focused(search) => search.root_split_on(var),
        }
    }

    /// How much was done in all cubes so far.
    pub fn counts(&self) -> Counts {
        match self {
            CubeSolver::Ordered(solver) => solver.counts(),
            CubeSolver::Focused(search) => search.search.counts(),
        }
    }
}
