//! The tree of a formula, solved from left to right, or put together from results.
ghost use Rattle.std.specs.Prelude.{◌≡◌, ◌≤◌, ◌<◌, ◌^◌, ℕ, false, IfOk, IfSome, OnOk};
ghost use Rattle.theory.specs.Truth.{Formula, IsOver};
ghost use Rattle.theory.specs.Plans as plans;
ghost use Rattle.theory.specs.Runs.{Runs};
ghost use Rattle.theory.specs.Results.{OutcomeSays, IsWhole, done};
ghost use Rattle.theory.specs.Checked.{IsCheckedOf};
ghost use Rattle.cdcl.specs.Outcome.{outcome_by};
ghost use Rattle.theory.specs.Beginnings.{begun_by};
ghost use Rattle.cubes.specs.Division.{IsRootOf};
ghost use Rattle.cubes.specs.Solved.{AreTrueBy, AreTrueResults, AreCheckedBy, AreCheckedResults, results_by};
ghost use Rattle.cubes.specs.Known.{AreOutcomes};
ghost use Rattle.cubes.specs.Source.{IsLazySolver, IsSource};
ghost use Rattle.cubes.specs.Result.{IsResultBy, IsResultOf, IsCheckedResultBy, IsCheckedResultOf, Says};

use crate::division::cube_solver::CubeSolver;
use crate::division::first_search::DivisionWatcher;
use crate::division::root::Root;
use crate::gate::{Gate, OpenGate, Watched, tell_refuted};
use crate::gathering::Gathering;
use crate::known::Known;
use crate::solved::Solved;
use crate::tree::Tree;
use cdcl::{KeepsLines, Outcome, Plan};
use cnf::Formula;
use kernel::Cube;
use lines::Row;
use std::alloc::{AllocError, Global};

/// The solver of a formula by a plan, which is opened once a cube is to be solved, and what it is
/// told of the cube without literals.
pub struct LazySolver {
    pub(crate) solver: Option<CubeSolver>,
    pub(crate) root: Root,
}

// written out, so that proofs of its owners stay short (docs/PROVING.md)
impl Drop for LazySolver {
    fn drop(self) {
        let LazySolver { solver: _, root: _ } = self;
    }
}

impl LazySolver {
    /// None was needed yet. It takes no memory.
    pub fn none(root: Root) -> LazySolver
        ensures { (F : Formula) (plan : plans.Plan) → IsRootOf F plan root → IsLazySolver F plan result }
    {
        LazySolver { solver: None, root }
    }

    /// The outcome of a cube. A watcher is told what is done. The first call opens the solver, which
    /// takes memory by the formula, and keeps lines if this one asks for them; it fails where a request for memory is refused or the watcher
    /// stops it, and the next call opens another solver then.
    pub fn solve<L: KeepsLines, W: DivisionWatcher>(
        &mut self,
        alloc: Global,
        formula: &Formula,
        plan: Plan,
        cube: &Cube,
        watcher: &W,
    ) -> Result<Outcome<L>, AllocError>
        requires over { IsOver formula.now.vars cube.now }
        requires solver { IsLazySolver (begun_by plan.search formula.now) plan self.old }
        ensures runs { IfOk result (λ o. Runs (begun_by plan.search formula.now) plan cube.now (outcome_by L.lines o)) }
        ensures says { IfOk result (λ o. OutcomeSays plan.search (begun_by plan.search formula.now) cube.now (outcome_by L.lines o)) }
        ensures kept { OnOk result (IsLazySolver (begun_by plan.search formula.now) plan self.new) }
    {
        let mut ready = match self.solver.take() {
            Some(solver) => solver,
            None => CubeSolver::open(alloc, formula, plan, self.root, L::keeps())?,
        };
        let outcome = ready.solve(plan, cube, watcher)?;
        self.solver = Some(ready);
        Ok(outcome)
    }
}

/// Where the outcomes of cubes come from: those that are known, and a solver, once one was needed.
pub(crate) struct Source<L> {
    pub(crate) known: Known<L>,
    pub(crate) solver: LazySolver,
}

// written out, so that proofs of its owners stay short (docs/PROVING.md)
impl<L: Drop> Drop for Source<L> {
    fn drop(self) {
        let Source {
            known: _,
            solver: _,
        } = self;
    }
}

impl<L: KeepsLines> Source<L> {
    /// The outcome of a cube: the one that is known, or what solving it on the spot gives. The gate
    /// is told of what is solved, as of the hand 0.
    fn outcome<G: Gate>(
        &mut self,
        alloc: Global,
        formula: &Formula,
        plan: Plan,
        cube: &Cube,
        gate: &G,
    ) -> Result<Outcome<L>, AllocError>
        requires over { IsOver formula.now.vars cube.now }
        requires source { IsSource L.lines (begun_by plan.search formula.now) plan self.old }
        ensures checked { IfOk result (λ o. IsCheckedOf plan.search (begun_by plan.search formula.now) cube.now (done (outcome_by L.lines o))) }
        ensures runs { AreOutcomes L.lines (begun_by plan.search formula.now) plan self.old.known → IfOk result (λ o. Runs (begun_by plan.search formula.now) plan cube.now (outcome_by L.lines o)) }
        ensures kept { OnOk result (IsSource L.lines (begun_by plan.search formula.now) plan self.new) }
        ensures still { AreOutcomes L.lines (begun_by plan.search formula.now) plan self.old.known → OnOk result (AreOutcomes L.lines (begun_by plan.search formula.now) plan self.new.known) }
    {
        match self.known.take(cube) {
            Some(outcome) => Ok(outcome),
            None => {
                let watched = Watched { gate, hand: 0 };
                let outcome = self.solver.solve(alloc, formula, plan, cube, &watched)?;
                tell_refuted(gate, 0, cube, &outcome);
                Ok(outcome)
            }
        }
    }
}

/// What `gather_by_plan` does, whatever keeps the lines of refuted cubes, where this is known of the
/// cube without literals, and tells a gate of what is solved. It fails also where the gate stops it.
pub(crate) fn gather_in<L: KeepsLines, G: Gate>(
    alloc: Global,
    formula: &Formula,
    plan: Plan,
    root: Root,
    results: Vec<Solved<L>>,
    gate: &G,
) -> Result<Tree<L>, AllocError>
    requires results { AreCheckedBy L.lines plan.search (begun_by plan.search formula.now) results.items }
    requires root { IsRootOf (begun_by plan.search formula.now) plan root }
    ensures checked { IfOk result (λ t. IsCheckedResultBy L.lines plan.search (begun_by plan.search formula.now) t) }
    ensures result { AreTrueBy L.lines (begun_by plan.search formula.now) plan results.items → IfOk result (λ t. IsResultBy L.lines (begun_by plan.search formula.now) plan t) }
    ensures says { IfOk result (λ t. Says plan.search formula.now t) }
{
    let _vars = formula.vars(); // it ensures what the proof needs of the formula
    let mut source = Source {
        known: Known::new(alloc, results)?,
        solver: LazySolver::none(root),
    };
    let mut gathering = Gathering::start(alloc);
    'cubes: loop {
        let outcome = source.outcome(alloc, formula, plan, &gathering.at.cube, gate)?;
        if let Some(tree) = gathering.go_on(outcome)? {
            return Ok(tree);
        }
    }
}

/// A checked result of the formula, from results of cubes that are checked: in any order, with
/// cubes missing, skipped, repeated or foreign to the tree. Where they are true it is the formula's
/// result by the plan; and true ones are checked, by `true_results_are_checked` of `theory`. It goes
/// through the cubes from left to right and solves those on the spot that it needs and that have no
/// outcome among the results, all by one solver. It fails only where a request for memory is
/// refused.
pub fn gather_by_plan(
    alloc: Global,
    formula: &Formula,
    plan: Plan,
    results: Vec<Solved<Row>>,
) -> Result<Tree<Row>, AllocError>
    requires results { AreCheckedResults plan.search (begun_by plan.search formula.now) results.items }
    ensures checked { IfOk result (λ t. IsCheckedResultOf plan.search (begun_by plan.search formula.now) t) }
    ensures result { AreTrueResults (begun_by plan.search formula.now) plan results.items → IfOk result (λ t. IsResultOf (begun_by plan.search formula.now) plan t) }
    ensures says { IfOk result (λ t. Says plan.search formula.now t) }
{
    gather_in(alloc, formula, plan, Root::Unknown, results, &OpenGate)
}

/// The result of the formula and the plan of which the results are whole: each cube of their tree
/// has its outcome among them, or lies right of a model. Neither the formula nor the plan is asked
/// for, and nothing is solved. It fails only where a request for memory is refused.
pub(crate) fn assemble_in<L: KeepsLines>(
    alloc: Global,
    results: Vec<Solved<L>>,
) -> Result<Tree<L>, AllocError>
    requires { (F : Formula) × (plan : plans.Plan) × (F.vars < 2 ^ 31) × IsWhole F plan (results_by L.lines results.items) }
    ensures { IfOk result (λ t. (F : Formula) (plan : plans.Plan) → IsWhole F plan (results_by L.lines results.items) → IsResultBy L.lines F plan t) }
{
    let mut known = Known::new(alloc, results)?;
    let mut gathering = Gathering::start(alloc);
    'cubes: loop {
        let outcome = match known.take(&gathering.at.cube) {
            Some(outcome) => outcome,
            None => unreachable!(),
        };
        if let Some(tree) = gathering.go_on(outcome)? {
            return Ok(tree);
        }
    }
}

/// The result of the formula by the plan. It fails only where a request for memory is refused.
pub fn solve_one_by_plan(
    alloc: Global,
    formula: &Formula,
    plan: Plan,
) -> Result<Tree<Row>, AllocError>
    ensures result { IfOk result (λ t. IsResultOf (begun_by plan.search formula.now) plan t) }
    ensures says { IfOk result (λ t. Says plan.search formula.now t) }
{
    gather_by_plan(alloc, formula, plan, Vec::new(alloc))
}
