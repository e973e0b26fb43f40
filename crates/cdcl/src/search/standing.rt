//! Where a focused search stands: what others ask of it, and propagation without a search.
ghost use Rattle.std.specs.Prelude.{◌≡◌, ◌<◌, ◌^◌, Some, None, IfOk, OnOk, IfSome};
ghost use Rattle.theory.specs.Trails.{current_level};
ghost use Rattle.theory.specs.Lawful.{IsLawful};
ghost use Rattle.theory.specs.Search.{values};
ghost use Rattle.lookahead.specs.Resting.{IsAtRest};
ghost use Rattle.cdcl.specs.Outcome.{outcome_of};
ghost use Rattle.cdcl.specs.Focusing.{stable_at, IsFocusing, IsRefutedAtOnce, ComesToRest, Continues};

use crate::api::outcome::Outcome;
use crate::search::focused::{FocusedSearch, if_stable};
use crate::search::line_log::LineLog;
use crate::search::values::values;
use kernel::Closed;
use std::alloc::{AllocError, Global};

impl FocusedSearch {
    /// Who gives it memory.
    pub fn allocator(&self) -> Global {
        self.lines.allocator()
    }

    /// How many literals it decided in stable mode, also those that were taken back.
    pub fn decided(&self) -> u64
        ensures { result ≡ self.now.decided }
    {
        self.decided
    }

    /// How many conflicts were counted in stable mode.
    pub fn stable_conflicts(&self) -> u32
        ensures { result ≡ self.now.stable_conflicts }
    {
        self.stable_conflicts
    }

    /// As many, with the conflict at which it was stopped.
    pub fn stable_at_stop(&self) -> u32
        ensures { self.now.stable_conflicts < 2 ^ 31 → result ≡ stable_at self.now }
    {
        self.stable_conflicts
            .saturating_add(if_stable(self.pace.mode()))
    }

    /// The truth values on the trail.
    pub fn values(&self) -> Result<Vec<bool>, AllocError>
        requires { IsLawful self.now.kernel.clauses self.now.kernel.trail }
        ensures { IfOk result (λ v. v.items ≡ values self.now.kernel.vars self.now.kernel.trail) }
    {
        values(self.allocator(), &self.kernel)
    }

    /// Propagation of the cube that was begun, and no more: its refutation, or none where it comes
    /// to rest.
    pub fn propagate(&mut self) -> Result<Option<Outcome<LineLog>>, AllocError>
        requires focusing { IsFocusing self.old }
        requires level { current_level self.old.kernel.trail ≡ 0 }
        ensures refuted { IfOk result (λ r. IfSome r (λ o. IsRefutedAtOnce self.old (outcome_of o))) }
        ensures rests { IfOk result (λ r. r ≡ None → ComesToRest self.old self.new × IsAtRest self.new.kernel) }
        ensures kept { OnOk result (Continues self.old self.new) }
    {
        match self.kernel.close()? {
            Closed::Quiet => Ok(None),
            Closed::Conflict(number) => {
                self.settle(0)?;
                let refuted = self.refuted(number)?;
                Ok(Some(refuted))
            }
        }
    }

    /// A cube was looked at, with this outcome and so many conflicts.
    pub fn add_look(&mut self, outcome: &Outcome<LineLog>, conflicts: u64)
        ensures { self.new ≡ self.old }
    {
        self.tally.add_look(outcome, conflicts);
    }
}
