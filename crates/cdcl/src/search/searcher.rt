//! The search of a plan.
ghost use Rattle.std.specs.Prelude.{◌≡◌, ◌≤◌, IfOk, OnOk};
ghost use Rattle.theory.specs.Truth.{Formula, IsOver};
ghost use Rattle.theory.specs.Plans as plans;
ghost use Rattle.theory.specs.Search.{max_focused};
ghost use Rattle.theory.specs.Runs.{RunsBy, cube_budget};
ghost use Rattle.theory.specs.Results.{OutcomeSays};
ghost use Rattle.theory.specs.Beginnings.{begun_by};
ghost use Rattle.cdcl.specs.Outcome.{outcome_of};
ghost use Rattle.cdcl.specs.Solving.{IsReadyBy};

use crate::api::counts::{Counts, Watcher};
use crate::api::outcome::Outcome;
use crate::api::plan::{Plan, Search};
use crate::search::focused::FocusedSearch;
use crate::search::line_log::LineLog;
use crate::search::ordered::OrderedSearch;
use cnf::Formula;
use kernel::Cube;
use std::alloc::{AllocError, Global};

/// One of the searches, with all that it keeps from cube to cube.
#[derive(Drop)]
pub(crate) enum Searcher {
    Ordered(OrderedSearch),
    Focused(FocusedSearch),
}

impl Searcher {
    /// The plan's search of a formula, before its first cube, which keeps the lines that it learns, or
    /// doesn't.
    pub(crate) fn open(
        alloc: Global,
        formula: &Formula,
        plan: Plan,
        keeps: bool,
    ) -> Result<Searcher, AllocError>
        ensures { IfOk result (IsReadyBy plan (begun_by plan.search formula.now)) }
    {
        match plan.search() {
            Search::Ordered => Ok(Searcher::Ordered(OrderedSearch::open(alloc, formula, keeps)?)),
            Search::Focused => {
                let search = FocusedSearch::open(alloc, formula, plan.constants(), keeps)?;
                Ok(Searcher::Focused(search))
            }
        }
    }

    /// Who gives it memory.
    pub(crate) fn allocator(&self) -> Global {
        match self {
            Searcher::Ordered(search) => search.lines.allocator(),
            Searcher::Focused(search) => search.allocator(),
        }
    }

    /// How much it has done in all cubes so far.
    pub(crate) fn counts(&self) -> Counts {
        match self {
            Searcher::Ordered(search) => search.counts(),
            Searcher::Focused(search) => search.counts(),
        }
    }

    /// The outcome of a cube, with this budget of conflicts.
    pub(crate) fn solve<W: Watcher>(
        &mut self,
        cube: &Cube,
        budget: u32,
        watcher: &W,
    ) -> Result<Outcome<LineLog>, AllocError>
        requires ready { (F : Formula) × (plan : plans.Plan) × IsReadyBy plan F self.old × IsOver F.vars cube.now × (budget ≡ cube_budget plan cube.now) }
        requires budget { (1 ≤ budget) × (budget ≤ max_focused) }
        ensures runs { IfOk result (λ o. (F : Formula) (plan : plans.Plan) → IsReadyBy plan F self.old → budget ≡ cube_budget plan cube.now →
            RunsBy plan.search F plan.budget cube.now (outcome_of o)) }
        ensures says { IfOk result (λ o. (F : Formula) (plan : plans.Plan) → IsReadyBy plan F self.old → budget ≡ cube_budget plan cube.now →
            IsOver F.vars cube.now → OutcomeSays plan.search F cube.now (outcome_of o)) }
        ensures ready { OnOk result ((F : Formula) (plan : plans.Plan) → IsReadyBy plan F self.old → IsReadyBy plan F self.new) }
    {
        match self {
            Searcher::Ordered(search) => {
                search.begin(cube)?;
                search.run(budget, watcher)
            }
            Searcher::Focused(search) => {
                let _trail = search.kernel.trail(); // it ensures what the clauses are over
                let _lits = cube.lits(); // it ensures that they are distinct
                search.solve(cube, budget, watcher)
            }
        }
    }
}
