//! The ordered search, which is made first, and the plan that is chosen by it.
ghost use Rattle.std.specs.Prelude.{◌≡◌, ◌≤◌, [], IfOk};
ghost use Rattle.theory.specs.Plans.{ordered_within};
ghost use Rattle.theory.specs.Pure.{searched};
ghost use Rattle.theory.specs.Runs.{Runs};
ghost use Rattle.cdcl.specs.Outcome.{outcome_by};
ghost use Rattle.strategies.specs.Choosing.{Decides, IsChosen};

use crate::observer::Observer;
use crate::strategy::Strategy;
use cdcl::{Counts, KeepsLines, Outcome, Plan, Solver, Unkept, Watcher};
use cnf::Formula;
use cubes::Gate;
use kernel::Cube;
use std::alloc::{AllocError, Global};

/// Watches the search that is made first.
#[derive(Drop)]
struct FirstWatcher<'a, G, O> {
    gate: &'a G,
    observer: &'a O,
}

impl<G: Gate, O: Observer> Watcher for FirstWatcher<'_, G, O> {
    fn counted(&self, counts: Counts) {
        self.observer.searched_first(counts);
    }

    fn stops(&self) -> bool {
        self.gate.stops()
    }
}

/// Whether the outcome of the cube without literals decides the formula.
pub(crate) fn decides<L: KeepsLines>(outcome: &Outcome<L>) -> bool
    ensures { Decides (outcome_by L.lines outcome.now) result }
{
    match outcome {
        Outcome::Exhausted(_) => false,
        _ => true,
    }
}

/// Where the formula is decided, no hand gets the cube without literals: so the gate is told of it
/// here.
pub(crate) fn tell<L: KeepsLines, G: Gate>(alloc: Global, gate: &G, outcome: &Outcome<L>) {
    if !decides(outcome) {
        return;
    }
    let root = Cube::root(alloc);
    gate.before(0, &root);
    if let Outcome::Refuted(_) = outcome {
        gate.refuted(0, &root);
    }
    gate.after(0, &root);
}

/// The outcome of the whole formula as one cube by the ordered search, with 1 to 100,000 conflicts.
/// It fails where a request for memory is refused or the gate stops it.
pub(crate) fn first_outcome<L: KeepsLines, G: Gate, O: Observer>(
    alloc: Global,
    formula: &Formula,
    budget: u32,
    gate: &G,
    observer: &O,
) -> Result<Outcome<L>, AllocError>
    requires { (1 ≤ budget) × (budget ≤ 100000) }
    ensures { IfOk result (λ o. Runs (searched formula.now) (ordered_within budget) [] (outcome_by L.lines o)) }
{
    let root = Cube::root(alloc);
    let mut solver = Solver::keeping(alloc, formula, Plan::ordered(budget), L::keeps())?;
    let outcome = solver.solve_as::<L, _>(&root, &FirstWatcher { gate, observer })?;
    observer.ended_first(decides(&outcome));
    tell(alloc, gate, &outcome);
    Ok(outcome)
}

/// The plan that decides the formula by the strategy. It takes the time of the search that is made
/// first, and fails where a request for memory is refused or the gate stops that.
pub fn chosen<G: Gate, O: Observer>(
    alloc: Global,
    formula: &Formula,
    strategy: Strategy,
    gate: &G,
    observer: &O,
) -> Result<Plan, AllocError>
    ensures { IfOk result (IsChosen formula.now strategy) }
{
    let Some(budget) = strategy.first_within(formula) else {
        return Ok(strategy.plan());
    };
    let outcome: Outcome<Unkept> = first_outcome(alloc, formula, budget, gate, observer)?;
    if decides(&outcome) {
        return Ok(Plan::ordered(budget));
    }
    Ok(strategy.plan())
}
