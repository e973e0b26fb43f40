//! The ordered search in one cube, up to a budget of conflicts: textbook CDCL that decides the least
//! free variable false and forgets nothing, so its model is the first. `Ordered` of `theory` is its
//! definition.
ghost use Rattle.std.specs.Prelude.{◌≡◌, ◌≤◌, ◌<◌, ◌^◌, ◌+◌, ◌++◌, ◌∷◌, [], false, Some, IfOk, OnOk};
ghost use Rattle.theory.specs.Truth.{Formula, IsOver};
ghost use Rattle.theory.specs.Pure.{searched};
ghost use Rattle.theory.specs.Trails.{literals, current_level, least_free};
ghost use Rattle.theory.specs.Propagation.{by_number, Propagates, quiet, conflict, least_false};
ghost use Rattle.theory.specs.Lawful.{IsLawful};
ghost use Rattle.theory.specs.Learning.{learn};
ghost use Rattle.theory.specs.Search.{RunsFrom};
ghost use Rattle.theory.specs.Ordered.{IsOrderedStep, after, learnt_next};
ghost use Rattle.theory.specs.Ordered as definition;
ghost use Rattle.kernel.specs.declared.order.Order.TheVariants.{ByNumber};
ghost use Rattle.cdcl.specs.Outcome.{outcome_of};
ghost use Rattle.cdcl.specs.Searching.{IsReady, IsSearching, IsSearchStep, Begins, GoesOn, search_of, next_of};

use crate::analysis::first_uip::{Learnt, analyze_in};
use crate::analysis::marks::AnalysisScratch;
use crate::api::counts::{Counts, Watcher, tell};
use crate::api::outcome::Outcome;
use crate::api::plan::Search;
use crate::search::line_log::LineLog;
use crate::search::opening::open_kernel;
use crate::search::values::{refute, values};
use cnf::{Formula, Lit};
use kernel::{Closed, Cube, Order, SearchKernel};
use std::alloc::{AllocError, Global};

/// The state of a search.
pub(crate) struct OrderedSearch {
    pub(crate) kernel: SearchKernel,
    /// How many conflicts above level 0 were counted.
    pub(crate) conflicts: u32,
    /// The first variable that was decided.
    pub(crate) decided: Option<u32>,
    /// The lines learnt.
    pub(crate) lines: LineLog,
    /// Room for the analysis of conflicts.
    pub(crate) scratch: AnalysisScratch,
    /// What the last conflict taught.
    pub(crate) learnt: Learnt,
}

// written out, so that proofs of its owners stay short (docs/PROVING.md)
impl Drop for OrderedSearch {
    fn drop(self) {
        let OrderedSearch {
            kernel: _,
            conflicts: _,
            decided: _,
            lines: _,
            scratch: _,
            learnt: _,
        } = self;
    }
}

impl OrderedSearch {
    /// A search of a formula with the unit clauses of its pure variables, before its first cube,
    /// which keeps the lines that it learns, or doesn't.
    pub(crate) fn open(
        alloc: Global,
        formula: &Formula,
        keeps: bool,
    ) -> Result<OrderedSearch, AllocError>
        ensures { IfOk result (λ s. IsReady ByNumber (searched formula.now) s.kernel) }
    {
        let units = Search::Ordered.units(alloc, formula)?;
        Ok(OrderedSearch {
            kernel: open_kernel(alloc, formula, &units, Order::ByNumber)?,
            conflicts: 0,
            decided: None,
            lines: LineLog::new(alloc, keeps),
            scratch: AnalysisScratch::new(),
            learnt: Learnt::none(alloc),
        })
    }

    /// Goes over to a cube, of which nothing is counted, decided or learnt yet.
    pub(crate) fn begin(&mut self, cube: &Cube) -> Result<(), AllocError>
        requires { self.old.kernel.out_of_memory ≡ false → IsOver self.old.kernel.vars cube.now }
        ensures { OnOk result ((F : Formula) → IsReady ByNumber F self.old.kernel → Begins F cube.now self.new) }
    {
        self.kernel.restart(cube)?;
        self.conflicts = 0;
        self.decided = None;
        self.lines.clear();
        Ok(())
    }

    /// How much was done in all cubes so far.
    pub(crate) fn counts(&self) -> Counts {
        Counts::of(self.kernel.counts())
    }

    /// The outcome of the cube that was begun.
    pub(crate) fn run<W: Watcher>(
        &mut self,
        budget: u32,
        watcher: &W,
    ) -> Result<Outcome<LineLog>, AllocError>
        requires searching { IsSearching ByNumber self.old.kernel }
        requires counted { self.old.conflicts < budget }
        ensures runs { IfOk result (λ o. RunsFrom (IsOrderedStep self.old.kernel.vars budget) (search_of self.old) (outcome_of o)) }
        ensures kept { OnOk result (GoesOn self.old.kernel self.new.kernel) }
    {
        let mut told = self.counts();
        'steps: loop {
            if let Some(outcome) = self.step(budget)? {
                return Ok(outcome);
            }
            told = tell(watcher, self.counts(), told)?;
        }
    }

    /// Propagation and what follows its answer.
    fn step(&mut self, budget: u32) -> Result<Option<Outcome<LineLog>>, AllocError>
        requires searching { IsSearching ByNumber self.old.kernel }
        requires counted { self.old.conflicts < budget }
        ensures { IfOk result (λ r. IsSearchStep budget self.old r self.new) }
    {
        match self.kernel.close()? {
            Closed::Quiet => self.on_quiet(),
            Closed::Conflict(number) => self.on_conflict(number, budget),
        }
    }

    /// Where propagation came to rest: decides the least free variable to be false, or gives the
    /// model where none is free.
    fn on_quiet(&mut self) -> Result<Option<Outcome<LineLog>>, AllocError>
        requires searching { IsSearching ByNumber self.old.kernel }
        requires quiet { Propagates by_number self.old.kernel.clauses self.old.kernel.trail quiet self.old.kernel.trail }
        ensures next { IfOk result (λ r. definition.on_quiet self.old.kernel.vars (search_of self.old)
            (least_free self.old.kernel.vars self.old.kernel.trail) ≡ next_of r self.new) }
        ensures kept { OnOk result (GoesOn self.old.kernel self.new.kernel) }
    {
        match self.kernel.least_free() {
            None => {
                let alloc = self.lines.allocator();
                Ok(Some(Outcome::Model(values(alloc, &self.kernel)?)))
            }
            Some(var) => {
                self.kernel.decide(Lit::of(var, false));
                if self.decided.is_none() {
                    self.decided = Some(var);
                }
                Ok(None)
            }
        }
    }

    /// A conflict above level 0 is counted; the last one that the budget allows exhausts the cube.
    fn on_conflict(
        &mut self,
        number: u64,
        budget: u32,
    ) -> Result<Option<Outcome<LineLog>>, AllocError>
        requires searching { IsSearching ByNumber self.old.kernel }
        requires conflict { least_false (literals self.old.kernel.trail) self.old.kernel.clauses ≡ Some number }
        requires counted { self.old.conflicts < budget }
        ensures next { IfOk result (λ r. after self.old.kernel.vars budget (search_of self.old) (conflict number) ≡ next_of r self.new) }
        ensures kept { OnOk result (GoesOn self.old.kernel self.new.kernel) }
    {
        if self.kernel.level() == 0 {
            return Ok(Some(refute(
                &self.kernel,
                &mut self.scratch,
                &mut self.learnt,
                &mut self.lines,
                number,
            )?));
        }
        if self.conflicts + 1 == budget {
            return Ok(Some(Outcome::Exhausted(self.decided.unwrap_or(0))));
        }
        self.go_back(number)?;
        Ok(None)
    }

    /// A conflict that is learnt from: goes back, and the learnt clause gets the next number.
    fn go_back(&mut self, number: u64) -> Result<(), AllocError>
        requires searching { IsSearching ByNumber self.old.kernel }
        requires conflict { least_false (literals self.old.kernel.trail) self.old.kernel.clauses ≡ Some number }
        requires level { 1 ≤ current_level self.old.kernel.trail }
        requires fits { self.old.conflicts + 1 < 2 ^ 32 }
        ensures next { OnOk result (search_of self.new
            ≡ learnt_next (search_of self.old) (learn self.old.kernel.clauses self.old.kernel.trail number)) }
        ensures kept { OnOk result (GoesOn self.old.kernel self.new.kernel) }
    {
        analyze_in(&self.kernel, &mut self.scratch, number, &mut self.learnt)?;
        self.kernel.back_to(self.learnt.level);
        self.kernel.learn(&self.learnt.clause)?;
        self.conflicts += 1;
        let none = Vec::new(self.lines.allocator());
        self.lines
            .push(&self.learnt.clause, &self.learnt.hints, &none)?;
        Ok(())
    }
}
