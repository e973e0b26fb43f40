//! Which variable the focused search decides, and with which value.
ghost use Rattle.std.specs.Prelude.{◌≡◌, ◌≤◌, ◌<◌, ◌-◌, ◌^◌, ◌&&◌, not, ℕ, true, false, [], IfOk, OnOk, length, take, slice_set, slice_index_or, map};
ghost use Rattle.theory.specs.Literals.{IsVariable, has_var};
ghost use Rattle.theory.specs.Truth.{value};
ghost use Rattle.theory.specs.Trails.{literals, up_to};
ghost use Rattle.theory.specs.Held.{held};
ghost use Rattle.theory.specs.Scores.{best_outside, first_scores};
ghost use Rattle.theory.specs.Focused.{saved_after, saved_literal};
ghost use Rattle.heuristics.specs.Changes.{changed};
ghost use Rattle.heuristics.specs.Rankings.{first_ranking, vars_of, with_waiting};
ghost use Rattle.cdcl.specs.Searching.{formula_of};
ghost use Rattle.cdcl.specs.Saving.{AgreeOutside, AreWaiting, AreKept, HoldsAsIn};

use crate::search::saved::Saved;
use cnf::Lit;
use heuristics::{Change, Constants, Scores};
use kernel::{Entry, SearchKernel};
use lookahead::held;
use std::alloc::{AllocError, Global};

/// By what variables are decided.
pub(crate) struct Decisions {
    /// The scores of the variables. Each held one that is free waits, and maybe some others.
    pub(crate) scores: Scores,
    /// The value of each variable when it left the trail last.
    pub(crate) saved: Saved,
    /// Whether the formula's clauses hold each variable; no other one is decided.
    pub(crate) held: Vec<bool>,
}

// written out, so that proofs of its owners stay short (docs/PROVING.md)
impl Drop for Decisions {
    fn drop(self) {
        let Decisions {
            scores: _,
            saved: _,
            held: _,
        } = self;
    }
}

/// How many entries, from the first on, are of a level or below it. It takes time by the others.
pub(crate) fn count_up_to(kernel: &SearchKernel, level: u32) -> usize
    ensures inside { result ≤ length kernel.now.trail }
    ensures entries { take result kernel.now.trail ≡ up_to kernel.now.trail level }
{
    let trail = kernel.trail();
    let mut count = trail.len();
    while count > 0 {
        let last = trail[count - 1];
        if last.level <= level {
            return count;
        }
        count -= 1;
    }
    0
}

impl Decisions {
    /// The decisions among the variables of a kernel that its first clauses hold, before the first
    /// cube.
    pub(crate) fn open(
        alloc: Global,
        kernel: &SearchKernel,
        constants: Constants,
    ) -> Result<Decisions, AllocError>
        requires { kernel.now.vars < 2 ^ 31 }
        ensures waiting { IfOk result (λ d. AreWaiting kernel.now.vars [] d) }
        ensures scores { IfOk result (λ d. d.scores ≡ first_ranking constants kernel.now.vars) }
        ensures held { IfOk result (λ d. HoldsAsIn (formula_of kernel.now) d.held.items) }
    {
        Ok(Decisions {
            scores: Scores::open(alloc, kernel.vars(), constants)?,
            saved: Saved::with_room(alloc, kernel.vars())?,
            held: held(alloc, kernel)?,
        })
    }

    /// Whether a clause of the formula holds the variable.
    fn holds(&self, var: u32) -> bool
        requires { IsVariable (length self.now.held.items) var }
        ensures { result ≡ value self.now.held.items var }
    {
        self.held[var as usize - 1]
    }

    /// Whether the variable may be decided: a clause holds it, and it is free.
    fn may_decide(&self, kernel: &SearchKernel, var: u32) -> bool
        requires { IsVariable (length self.now.held.items) var }
        ensures { result ≡ (value self.now.held.items var && not (has_var (literals kernel.now.trail) var)) }
    {
        if !self.holds(var) {
            return false;
        }
        kernel.value(var).is_none()
    }

    /// The held free variable of greatest score, of several the greatest. Others don't wait any more,
    /// once they are met.
    pub(crate) fn best_free(&mut self, kernel: &SearchKernel) -> Option<u32>
        requires waiting { AreWaiting kernel.now.vars (literals kernel.now.trail) self.old }
        requires held { HoldsAsIn (formula_of kernel.now) self.old.held.items }
        ensures best { result ≡ best_outside (held (formula_of kernel.now)) (literals kernel.now.trail) self.old.scores.scores }
        ensures waiting { AreWaiting kernel.now.vars (literals kernel.now.trail) self.new }
        ensures kept { AreKept self.old self.new }
        ensures saved { self.new.saved ≡ self.old.saved }
    {
        'waiting: while let Some(var) = self.scores.best() {
            if self.may_decide(kernel, var) {
                return Some(var);
            }
            self.scores.take_out(var);
        }
        None
    }

    /// The literal of a variable that is true where it has its saved value.
    pub(crate) fn literal(&self, var: u32) -> Lit
        requires saved { IsVariable (length self.now.saved) var }
        requires small { var < 2 ^ 31 }
        ensures { result ≡ saved_literal self.now.saved var }
    {
        Lit::of(var, self.saved.of(var))
    }

    /// Saves the value of an entry's variable, and lets it wait.
    fn free(&mut self, entry: Entry) -> Result<(), AllocError>
        requires scores { IsVariable (vars_of self.old.scores) entry.lit.var }
        requires saved { IsVariable (length self.old.saved) entry.lit.var }
        ensures scores { OnOk result (self.new.scores ≡ with_waiting self.old.scores entry.lit.var true) }
        ensures saved { OnOk result (self.new.saved ≡ slice_set self.old.saved (entry.lit.var - 1) entry.lit.positive) }
        ensures held { OnOk result (self.new.held ≡ self.old.held) }
    {
        let var = entry.lit.var();
        self.saved.save(var, entry.lit.positive())?;
        self.scores.put_back(var);
        Ok(())
    }

    /// Saves the values of the variables whose entries stand behind the first so many, and lets
    /// them wait.
    pub(crate) fn release(&mut self, kernel: &SearchKernel, kept: usize) -> Result<(), AllocError>
        requires kept { kept ≤ length kernel.now.trail }
        requires waiting { AreWaiting kernel.now.vars (literals kernel.now.trail) self.old }
        ensures waiting { OnOk result (AreWaiting kernel.now.vars (literals (take kept kernel.now.trail)) self.new) }
        ensures saved { OnOk result (AgreeOutside kernel.now.vars (literals (take kept kernel.now.trail)) self.new.saved
            (saved_after kernel.now.vars kernel.now.trail self.old.saved)) }
        ensures kept { OnOk result (AreKept self.old self.new) }
    {
        let trail = kernel.trail();
        let mut count = trail.len();
        while count > kept {
            count -= 1;
            self.free(trail[count])?;
        }
        Ok(())
    }

    /// Changes all saved values.
    pub(crate) fn rephase(&mut self, change: Change)
        ensures scores { self.new.scores ≡ self.old.scores }
        ensures saved { self.new.saved ≡ changed change self.old.saved }
        ensures held { self.new.held ≡ self.old.held }
    {
        self.saved.change(change);
    }

    /// As it was before the first cube, where each variable waits. It takes time by what the last
    /// cube changed.
    pub(crate) fn begin_again(&mut self)
        ensures scores { self.new.scores ≡ record self.old.scores { scores = first_scores self.old.scores.constants (vars_of self.old.scores) } }
        ensures long { length self.new.saved ≡ length self.old.saved }
        ensures all { (v : ℕ) → IsVariable (length self.old.saved) v → value self.new.saved v ≡ true }
        ensures held { self.new.held ≡ self.old.held }
    {
        self.scores.begin_again();
        self.saved.clear();
    }
}
