//! Which variable the search decides, and with which value.
ghost use Rattle.std.specs.Prelude.{◌≡◌, ◌≤◌, ◌<◌, ◌+◌, ◌^◌, false, None, All, length, IfOk, IfNone, IfSome, OnOk};
ghost use Rattle.theory.specs.Literals.{IsVariable, has_var};
ghost use Rattle.theory.specs.Trails.{literals, least_free};
ghost use Rattle.heuristics.specs.Rankings.{AreDistinct, vars_of};
ghost use Rattle.session.specs.Choosing.{HasChoice};

use cnf::Lit;
use heuristics::{Constants, Mode, Scores};
use kernel::SearchKernel;
use std::alloc::{AllocError, Global};

/// By what variables are decided: scores, and the value that each variable had last, at first true.
/// There may be room for more variables than the formula has.
pub(crate) struct Choice {
    // those that are free wait, but none above the formula's
    pub(crate) scores: Scores,
    // by variable, from number 0 on, which is none
    pub(crate) saved: Vec<bool>,
    // how many variables the formula has
    pub(crate) vars: u32,
}

// written out, so that proofs of its owners stay short (docs/PROVING.md)
impl Drop for Choice {
    fn drop(self) {
        let Choice {
            scores: _,
            saved: _,
            vars: _,
        } = self;
    }
}

impl Choice {
    /// Room for the variables 1 to `room`, of which the formula has none yet.
    pub(crate) fn open(alloc: Global, room: u32) -> Result<Choice, AllocError>
        ensures { IfOk result (HasChoice room) }
    {
        let mut scores = Scores::open(alloc, room, Constants::default())?;
        for index in 0..room {
            scores.take_out(index + 1);
        }
        Ok(Choice {
            scores,
            saved: vec![in alloc; true; room as usize + 1]?,
            vars: 0,
        })
    }

    /// Lets the variables wait up to which the formula has them now.
    pub(crate) fn widen(&mut self, room: u32, vars: u32)
        requires { HasChoice room self.old }
        ensures { HasChoice room self.new }
    {
        let from = self.vars;
        for index in from..vars.min(room) {
            self.scores.put_back(index + 1);
        }
        self.vars = self.vars.max(vars);
    }

    /// Takes values as saved ones, from number 0 on, as far as they go.
    pub(crate) fn take_saved(&mut self, room: u32, values: &[bool])
        requires { HasChoice room self.old }
        ensures { HasChoice room self.new }
    {
        for (saved, value) in self.saved.iter_mut().zip(values.iter()) {
            *saved = *value;
        }
    }

    /// The literal to be decided: of the free variable of greatest score among those that wait, and
    /// where none of these is free the least free one.
    pub(crate) fn best(&mut self, kernel: &SearchKernel) -> Option<Lit>
        requires room { HasChoice kernel.now.vars self.old }
        requires few { kernel.now.vars < 2 ^ 31 }
        ensures free { IfSome result (λ l. IsVariable kernel.now.vars l.var × (has_var (literals kernel.now.trail) l.var ≡ false)) }
        ensures none { IfNone result (least_free kernel.now.vars kernel.now.trail ≡ None) }
        ensures room { HasChoice kernel.now.vars self.new }
    {
        for _ in 0..self.saved.len() {
            let Some(var) = self.scores.best() else {
                break;
            };
            if kernel.value(var).is_none() {
                return Some(Lit::of(var, self.saved[var as usize]));
            }
            self.scores.take_out(var);
        }
        let var = kernel.least_free()?;
        Some(Lit::of(var, self.saved[var as usize]))
    }

    /// Saves the values of the variables whose entries are above a level, and lets them wait.
    pub(crate) fn release(&mut self, kernel: &SearchKernel, level: u32)
        requires { HasChoice kernel.now.vars self.old }
        ensures { HasChoice kernel.now.vars self.new }
    {
        let trail = kernel.trail();
        let mut count = trail.len();
        while count > 0 {
            count -= 1;
            let entry = trail[count];
            if entry.level <= level {
                return;
            }
            self.free(kernel.vars(), entry.lit);
        }
    }

    /// Saves the value of a literal's variable, and lets it wait.
    fn free(&mut self, room: u32, lit: Lit)
        requires room { HasChoice room self.old }
        requires variable { IsVariable room lit.var }
        ensures { HasChoice room self.new }
    {
        let var = lit.var();
        self.saved[var as usize] = lit.positive();
        if var <= self.vars {
            self.scores.put_back(var);
        }
    }

    /// Raises the scores of the variables that a conflict has seen. Where a request for memory is
    /// refused, no score has changed.
    pub(crate) fn raise(&mut self, room: u32, seen: &[u32]) -> Result<(), AllocError>
        requires room { HasChoice room self.old }
        requires variables { All (IsVariable room) seen.now }
        requires distinct { AreDistinct seen.now }
        ensures { HasChoice room self.new }
    {
        self.scores.learn_from(seen, Mode::Stable)
    }
}
