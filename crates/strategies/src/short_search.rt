//! The short focused search, which says whether a formula is simplified.
ghost use Rattle.std.specs.Prelude.{◌≡◌, ◌≤◌, min, [], IfOk};
ghost use Rattle.theory.specs.Plans.{focused};
ghost use Rattle.theory.specs.Focused.{RunsFocused};
ghost use Rattle.theory.specs.Beginnings.{first_tried};
ghost use Rattle.cdcl.specs.Plans.{constants_from};
ghost use Rattle.cdcl.specs.Outcome.{outcome_by};

use crate::observer::Observer;
use cdcl::{Counts, KeepsLines, Outcome, Plan, Solver, Watcher};
use cnf::Formula;
use cubes::Gate;
use kernel::Cube;
use std::alloc::{AllocError, Global};

/// So many conflicts may solve a formula before it is simplified.
const FIRST_TRIED: u32 = 1000;

/// Watches the search.
#[derive(Drop)]
struct Tries<'a, G, O> {
    gate: &'a G,
    observer: &'a O,
}

impl<G: Gate, O: Observer> Watcher for Tries<'_, G, O> {
    fn counted(&self, counts: Counts) {
        self.observer.tried(counts);
    }

    fn stops(&self) -> bool {
        self.gate.stops()
    }
}

/// The outcome of the cube without literals by a plan's focused search, with 1000 conflicts at most.
/// It fails where a request for memory is refused or the gate stops it.
pub(crate) fn short_outcome<L: KeepsLines, G: Gate, O: Observer>(
    alloc: Global,
    formula: &Formula,
    plan: Plan,
    gate: &G,
    observer: &O,
) -> Result<Outcome<L>, AllocError>
    requires { plan.search ≡ focused (constants_from plan.search) }
    ensures { IfOk result (λ o. RunsFocused (constants_from plan.search) formula.now (min first_tried plan.budget) [] (outcome_by L.lines o)) }
{
    let root = Cube::root(alloc);
    let conflicts = FIRST_TRIED.min(plan.budget());
    let first = Plan::focused_by(conflicts, plan.constants());
    let mut solver = Solver::keeping(alloc, formula, first, L::keeps())?;
    let outcome = solver.solve_as::<L, _>(&root, &Tries { gate, observer })?;
    Ok(outcome)
}
