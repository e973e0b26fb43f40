//! Solving the cubes of a formula, one after the other.
ghost use Rattle.std.specs.Prelude.{◌≡◌, true, false, IfOk, OnOk, OnErr, IsErr};
ghost use Rattle.theory.specs.Truth.{IsOver};
ghost use Rattle.theory.specs.Runs.{RunsBy};
ghost use Rattle.theory.specs.Results.{OutcomeSays};
ghost use Rattle.cdcl.specs.Outcome.{outcome_of, outcome_by};
ghost use Rattle.theory.specs.Beginnings.{begun_by};

use crate::api::budget::budget_of;
use crate::api::counts::{Counts, Unwatched, Watcher};
use crate::api::keeping::KeepsLines;
use crate::api::outcome::Outcome;
use crate::api::plan::Plan;
use crate::search::searcher::Searcher;
use cnf::Formula;
use kernel::Cube;
use lines::Row;
use std::alloc::{AllocError, Global};
use std::marker::Model;
use std::snapshot::Snapshot;

/// Solves cubes of one formula by the search of one plan, and divides none. The formula's clauses
/// are copied once, for the ordered search with a unit clause for each of its pure literals, and the
/// room for analysis is made once, so that a cube costs what its search does and not what the
/// formula holds. A cube's budget is the root's times one more than the cube's literals, and at most
/// 1,000,000, or with the focused search 1,000,000,000. Once a call has met want of memory, each
/// later one answers it.
pub struct Solver {
    search: Searcher,
    // which formula it is; it is no data, and takes no room
    formula: Snapshot<Formula>,
    plan: Plan,
    // whether a call has met want of memory
    out_of_memory: bool,
}

// written out, so that proofs of its owners stay short (docs/PROVING.md)
impl Drop for Solver {
    fn drop(self) {
        let Solver {
            search: _,
            formula: _,
            plan: _,
            out_of_memory: _,
        } = self;
    }
}

impl Model for Solver {
    ghost use Rattle.std.specs.Prelude.{◌≡◌, false};
    ghost use Rattle.theory.specs.Beginnings.{begun_by};
    ghost use Rattle.cdcl.specs.Solving.{IsReadyBy, Solving};

    ghost Value = { Solving };

    ghost view = { λ a. record { formula = begun_by a.plan.search a.formula.value; plan = a.plan; out_of_memory = a.out_of_memory } };

    ghost invariant = { λ a. a.out_of_memory ≡ false → IsReadyBy a.plan (begun_by a.plan.search a.formula.value) a.search };
}

impl Solver {
    /// A solver of a formula by a plan. It takes time and memory by the formula's literals and
    /// variables, and fails where that is refused.
    pub fn open(alloc: Global, formula: &Formula, plan: Plan) -> Result<Solver, AllocError>
        ensures { IfOk result (λ s. s ≡ record { formula = begun_by plan.search formula.now; plan = plan; out_of_memory = false }) }
    {
        Solver::keeping(alloc, formula, plan, true)
    }

    /// The same, which keeps the lines of a cube while it searches that, or doesn't: then its memory
    /// doesn't grow by them.
    pub fn keeping(
        alloc: Global,
        formula: &Formula,
        plan: Plan,
        keeps: bool,
    ) -> Result<Solver, AllocError>
        ensures { IfOk result (λ s. s ≡ record { formula = begun_by plan.search formula.now; plan = plan; out_of_memory = false }) }
    {
        Ok(Solver {
            search: Searcher::open(alloc, formula, plan, keeps)?,
            formula: Snapshot::of(formula),
            plan,
            out_of_memory: false,
        })
    }

    /// The outcome of a cube over the formula's variables, by the plan's search: whatever cubes came
    /// before, it is the same. It takes time by what the search does, and by the variables for a
    /// model alone. An error comes only where an earlier call has met want of memory, or where a
    /// request for memory is refused, and from then on.
    pub fn solve(&mut self, cube: &Cube) -> Result<Outcome<Row>, AllocError>
        requires over { IsOver self.old.formula.vars cube.now }
        ensures runs { IfOk result (λ o. RunsBy self.old.plan.search self.old.formula self.old.plan.budget cube.now (outcome_of o)) }
        ensures says { IfOk result (λ o. OutcomeSays self.old.plan.search self.old.formula cube.now (outcome_of o)) }
        ensures solves { (self.new.formula ≡ self.old.formula) × (self.new.plan ≡ self.old.plan) }
        ensures refused { OnErr result (self.new.out_of_memory ≡ true) }
        ensures has_memory { OnOk result (self.new.out_of_memory ≡ false) }
        ensures stays { self.old.out_of_memory ≡ true → IsErr result }
    {
        let outcome = self.solve_watched(cube, &Unwatched)?;
        Ok(outcome)
    }

    /// How much was done in all cubes so far.
    pub fn counts(&self) -> Counts {
        self.search.counts()
    }

    /// As `solve`, and tells a watcher what is done. Where the watcher stops it, the answer is an
    /// error, and from then on, as where memory is refused.
    pub fn solve_watched<W: Watcher>(
        &mut self,
        cube: &Cube,
        watcher: &W,
    ) -> Result<Outcome<Row>, AllocError>
        requires over { IsOver self.old.formula.vars cube.now }
        ensures runs { IfOk result (λ o. RunsBy self.old.plan.search self.old.formula self.old.plan.budget cube.now (outcome_of o)) }
        ensures says { IfOk result (λ o. OutcomeSays self.old.plan.search self.old.formula cube.now (outcome_of o)) }
        ensures solves { (self.new.formula ≡ self.old.formula) × (self.new.plan ≡ self.old.plan) }
        ensures refused { OnErr result (self.new.out_of_memory ≡ true) }
        ensures has_memory { OnOk result (self.new.out_of_memory ≡ false) }
        ensures stays { self.old.out_of_memory ≡ true → IsErr result }
    {
        let outcome = self.solve_as(cube, watcher)?;
        Ok(outcome)
    }

    /// As `solve_watched`, whatever keeps the lines of a refuted cube. Where that keeps some, the
    /// solver has to be one that does.
    pub fn solve_as<L: KeepsLines, W: Watcher>(
        &mut self,
        cube: &Cube,
        watcher: &W,
    ) -> Result<Outcome<L>, AllocError>
        requires over { IsOver self.old.formula.vars cube.now }
        ensures runs { IfOk result (λ o. RunsBy self.old.plan.search self.old.formula self.old.plan.budget cube.now (outcome_by L.lines o)) }
        ensures says { IfOk result (λ o. OutcomeSays self.old.plan.search self.old.formula cube.now (outcome_by L.lines o)) }
        ensures solves { (self.new.formula ≡ self.old.formula) × (self.new.plan ≡ self.old.plan) }
        ensures refused { OnErr result (self.new.out_of_memory ≡ true) }
        ensures has_memory { OnOk result (self.new.out_of_memory ≡ false) }
        ensures stays { self.old.out_of_memory ≡ true → IsErr result }
    {
        if self.out_of_memory {
            return Err(AllocError);
        }
        self.out_of_memory = true; // so it stays where one of the next calls fails
        if watcher.stops() {
            return Err(AllocError);
        }
        let conflicts = budget_of(&self.plan, cube.lits().len());
        let found = self.search.solve(cube, conflicts, watcher)?;
        let outcome = found.kept(self.search.allocator())?;
        watcher.counted(self.search.counts());
        self.out_of_memory = false;
        Ok(outcome)
    }
}
