//! A question, step by step.
ghost use Rattle.std.specs.Prelude.{◌≡◌, ◌≤◌, ◌<◌, ◌-◌, ◌^◌, ◌⊎◌, true, false, Some, take, length, IfOk, IfSome, IfNone, OnOk};
ghost use Rattle.theory.specs.Literals.{has};
ghost use Rattle.theory.specs.Truth.{IsOver};
ghost use Rattle.theory.specs.Trails.{literals, current_level};
ghost use Rattle.theory.specs.Propagation.{by_place, Propagates, quiet, least_false};
ghost use Rattle.session.specs.Answers.{Says};
ghost use Rattle.session.specs.Loading.{IsLoaded};
ghost use Rattle.session.specs.Asking.{IsAsked, IsAssumed, SaysIfAny};

use crate::answer::Answer;
use crate::core_walk::needed;
use crate::growing::GrowingFormula;
use crate::interrupt::Interrupt;
use crate::search::Search;
use crate::values::{is_true, values};
use cnf::Lit;
use kernel::Closed;
use std::alloc::AllocError;

/// After so many steps it is asked whether the question is interrupted.
const ASKED_EACH: u64 = 256;

impl Search {
    /// The answer to a question. Where the kernel is to be opened anew in between, the question goes
    /// on from level 0.
    pub(crate) fn answer<I: Interrupt>(
        &mut self,
        formula: &GrowingFormula,
        loaded: &mut usize,
        assumptions: &[Lit],
        interrupt: &I,
        steps: &mut u64,
    ) -> Result<Answer, AllocError>
        requires loaded { IsLoaded formula.now.clauses (take loaded.old formula.now.clauses) self.old }
        requires assumptions { IsOver formula.now.vars assumptions.now }
        ensures says { IfOk result (Says formula.now assumptions.now ((I.may_interrupt interrupt.now ≡ true) ⊎ (2 ^ 64 - 1 ≤ steps.new))) }
        ensures loaded { OnOk result (IsLoaded formula.now.clauses (take loaded.new formula.now.clauses) self.new) }
        ensures within { loaded.old ≤ length formula.now.clauses → loaded.new ≤ length formula.now.clauses }
    {
        'rounds: while *steps < u64::MAX {
            self.load(formula, *loaded)?;
            *loaded = formula.clause_count();
            self.begin(formula, assumptions)?;
            let stop = self.run(formula, assumptions, interrupt, steps)?;
            self.settle(formula, assumptions)?;
            if let Some(answer) = stop {
                return Ok(answer);
            }
        }
        Ok(Answer::Unknown)
    }

    /// Goes on to an answer, or until the kernel has too many clauses.
    fn run<I: Interrupt>(
        &mut self,
        formula: &GrowingFormula,
        assumptions: &[Lit],
        interrupt: &I,
        steps: &mut u64,
    ) -> Result<Option<Answer>, AllocError>
        requires asked { IsAsked formula.now assumptions.now self.old }
        requires more { steps.old < 2 ^ 64 - 1 }
        ensures says { IfOk result (SaysIfAny formula.now assumptions.now ((I.may_interrupt interrupt.now ≡ true) ⊎ (2 ^ 64 - 1 ≤ steps.new))) }
        ensures asked { OnOk result (IsAsked formula.now assumptions.now self.new) }
        ensures onward { steps.old < steps.new }
    {
        'steps: while *steps < u64::MAX {
            *steps += 1;
            if *steps % ASKED_EACH == 0 && interrupt.interrupts() {
                return Ok(Some(Answer::Unknown));
            }
            if let Some(answer) = self.step(formula, assumptions)? {
                return Ok(Some(answer));
            }
            if self.is_full() {
                return Ok(None);
            }
        }
        Ok(Some(Answer::Unknown))
    }

    /// Propagation, and what follows.
    fn step(
        &mut self,
        formula: &GrowingFormula,
        assumptions: &[Lit],
    ) -> Result<Option<Answer>, AllocError>
        requires { IsAsked formula.now assumptions.now self.old }
        ensures says { IfOk result (SaysIfAny formula.now assumptions.now ⊥) }
        ensures asked { OnOk result (IsAsked formula.now assumptions.now self.new) }
    {
        match self.kernel.close()? {
            Closed::Quiet => self.on_quiet(formula, assumptions),
            Closed::Conflict(number) => self.on_conflict(formula, assumptions, number),
        }
    }

    /// A conflict at level 0 refutes the clauses; from another one it learns.
    fn on_conflict(
        &mut self,
        formula: &GrowingFormula,
        assumptions: &[Lit],
        number: u64,
    ) -> Result<Option<Answer>, AllocError>
        requires asked { IsAsked formula.now assumptions.now self.old }
        requires conflict { least_false (literals self.old.kernel.trail) self.old.kernel.clauses ≡ Some number }
        ensures says { IfOk result (SaysIfAny formula.now assumptions.now ⊥) }
        ensures asked { OnOk result (IsAsked formula.now assumptions.now self.new) }
    {
        if self.kernel.level() == 0 {
            let alloc = *self.marked.allocator();
            return Ok(Some(Answer::Unsatisfiable(Vec::new(alloc))));
        }
        self.learn_from(formula, assumptions, number)?;
        Ok(None)
    }

    /// Where propagation came to rest: the next assumption that isn't true, or a decision.
    fn on_quiet(
        &mut self,
        formula: &GrowingFormula,
        assumptions: &[Lit],
    ) -> Result<Option<Answer>, AllocError>
        requires asked { IsAsked formula.now assumptions.now self.old }
        requires quiet { Propagates by_place self.old.kernel.clauses self.old.kernel.trail quiet self.old.kernel.trail }
        ensures says { IfOk result (SaysIfAny formula.now assumptions.now ⊥) }
        ensures asked { OnOk result (IsAsked formula.now assumptions.now self.new) }
    {
        match self.next_assumption(formula, assumptions) {
            Some(lit) => self.assume(formula, assumptions, lit),
            None => self.decide(formula, assumptions),
        }
    }

    /// The first of the assumptions that isn't true.
    fn next_assumption(&mut self, formula: &GrowingFormula, assumptions: &[Lit]) -> Option<Lit>
        requires { IsAsked formula.now assumptions.now self.old }
        ensures some { IfSome result (λ l. (has assumptions.now l ≡ true) × (has (literals self.old.kernel.trail) l ≡ false)
            × (current_level self.old.kernel.trail ≤ self.new.base)) }
        ensures none { IfNone result (length assumptions.now ≤ self.new.assumed) }
        ensures asked { IsAsked formula.now assumptions.now self.new }
        ensures kernel { self.new.kernel ≡ self.old.kernel }
    {
        let _formula = formula; // it is there for the contract alone
        while self.assumed < assumptions.len() {
            let lit = assumptions[self.assumed];
            if !is_true(&self.kernel, lit) {
                return Some(lit);
            }
            self.assumed += 1;
        }
        None
    }

    /// Decides an assumption that isn't true. If it is false, it and the assumptions that make it
    /// false are a core.
    fn assume(
        &mut self,
        formula: &GrowingFormula,
        assumptions: &[Lit],
        lit: Lit,
    ) -> Result<Option<Answer>, AllocError>
        requires asked { IsAsked formula.now assumptions.now self.old }
        requires quiet { Propagates by_place self.old.kernel.clauses self.old.kernel.trail quiet self.old.kernel.trail }
        requires assumption { has assumptions.now lit ≡ true }
        requires untrue { has (literals self.old.kernel.trail) lit ≡ false }
        requires base { current_level self.old.kernel.trail ≤ self.old.base }
        ensures says { IfOk result (SaysIfAny formula.now assumptions.now ⊥) }
        ensures asked { OnOk result (IsAsked formula.now assumptions.now self.new) }
    {
        let (_formula, _assumptions) = (formula, assumptions); // they are there for the contract alone
        if self.kernel.value(lit.var()).is_some() {
            let alloc = *self.marked.allocator();
            let core = needed(alloc, &self.kernel, &mut self.marked, lit)?;
            return Ok(Some(Answer::Unsatisfiable(core)));
        }
        self.kernel.decide(lit);
        self.base = self.kernel.level();
        Ok(None)
    }

    /// Decides a variable, once all assumptions are true. Where none is free, there is a model.
    fn decide(
        &mut self,
        formula: &GrowingFormula,
        assumptions: &[Lit],
    ) -> Result<Option<Answer>, AllocError>
        requires asked { IsAsked formula.now assumptions.now self.old }
        requires quiet { Propagates by_place self.old.kernel.clauses self.old.kernel.trail quiet self.old.kernel.trail }
        requires assumed { length assumptions.now ≤ self.old.assumed }
        ensures says { IfOk result (SaysIfAny formula.now assumptions.now ⊥) }
        ensures asked { OnOk result (IsAsked formula.now assumptions.now self.new) }
    {
        let _assumptions = assumptions; // they are there for the contract alone
        let _trail = self.kernel.trail(); // it ensures what the proof needs of the clauses
        match self.choice.best(&self.kernel) {
            None => {
                let alloc = *self.marked.allocator();
                let model = values(alloc, &self.kernel, formula.vars())?;
                Ok(Some(Answer::Model(model)))
            }
            Some(lit) => {
                self.base = self.base.min(self.kernel.level());
                self.kernel.decide(lit);
                Ok(None)
            }
        }
    }
}
