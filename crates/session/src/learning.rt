//! What a question learns from a conflict.
ghost use Rattle.std.specs.Prelude.{◌≡◌, ◌≤◌, Some, OnOk};
ghost use Rattle.theory.specs.Trails.{literals, current_level};
ghost use Rattle.theory.specs.Propagation.{least_false};
ghost use Rattle.session.specs.Asking.{IsAsked};

use crate::growing::GrowingFormula;
use crate::search::Search;
use cnf::Lit;
use std::alloc::AllocError;

/// 1 for a clause of one literal.
fn if_unit(clause: &[Lit]) -> usize {
    if clause.len() == 1 { 1 } else { 0 }
}

impl Search {
    /// Learns the clause that a conflict above level 0 teaches, at the level where it is a unit
    /// clause, and restarts where that is due. What is learnt follows from the clauses alone, since
    /// the assumptions are decisions.
    pub(crate) fn learn_from(
        &mut self,
        formula: &GrowingFormula,
        assumptions: &[Lit],
        conflict: u64,
    ) -> Result<(), AllocError>
        requires asked { IsAsked formula.now assumptions.now self.old }
        requires conflict { least_false (literals self.old.kernel.trail) self.old.kernel.clauses ≡ Some conflict }
        requires above { 1 ≤ current_level self.old.kernel.trail }
        ensures { OnOk result (IsAsked formula.now assumptions.now self.new) }
    {
        let glue = self.lessons.learn_from(&self.kernel, conflict)?;
        self.choice.raise(self.kernel.vars(), self.lessons.seen())?;
        let level = self.lessons.level();
        self.go_back(formula, assumptions, level);
        self.kernel.learn(self.lessons.clause())?;
        self.glues.push(glue.max(1))?;
        self.units = self.units.saturating_add(if_unit(self.lessons.clause()));
        if self.restarts.count_conflict() {
            self.go_back(formula, assumptions, 0);
        }
        Ok(())
    }
}
