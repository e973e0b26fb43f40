//! The focused search in one cube, up to a budget of conflicts: all of CDCL, as in MiniSat and
//! Glucose, with the modes and rounds of CaDiCaL. `Focused` of `theory` is its definition.
ghost use Rattle.std.specs.Prelude.{◌≡◌, ◌≤◌, ◌<◌, ◌+◌, ◌++◌, ◌∷◌, [], ℕ, false, Some, None, IfOk, OnOk, if◌then◌else◌};
ghost use Rattle.theory.specs.Truth.{Formula, Assignment, IsOver};
ghost use Rattle.theory.specs.Modes.{is_restarting};
ghost use Rattle.theory.specs.Trails.{literals, current_level};
ghost use Rattle.theory.specs.Propagation.{by_place, Propagates, quiet, conflict, least_false};
ghost use Rattle.theory.specs.Search.{refuted, budget_within, max_focused};
ghost use Rattle.theory.specs.Learning.{learn};
ghost use Rattle.theory.specs.Focused.{splits_on, RunsFocused};
ghost use Rattle.heuristics.specs.Modes.{mode_of};
ghost use Rattle.kernel.specs.Answer.{closed_of};
ghost use Rattle.kernel.specs.declared.order.Order.TheVariants.{ByPlace};
ghost use Rattle.cdcl.specs.Outcome.{outcome_of};
ghost use Rattle.cdcl.specs.Searching.{IsReady, formula_of};
ghost use Rattle.cdcl.specs.declared.search.focused.Stop.TheVariants.{Spent};
ghost use Rattle.cdcl.specs.Focusing.{state_of, IsKept, RunsTo, Stops, IsSpent, HasSaved, HasUnits, IsEquipped, IsFocusing, Follows, IsFocusedSearchStep, Begins, Closes, Continues};

use crate::analysis::analyze::Analysis;
use crate::analysis::unit_hints::UnitHints;
use crate::api::counts::{Counts, Watcher, tell};
use crate::api::outcome::Outcome;
use crate::api::plan::Search;
use crate::search::decisions::{Decisions, count_up_to};
use crate::search::line_log::LineLog;
use crate::search::line_marks::Mark;
use crate::search::opening::open_kernel;
use crate::search::tally::Tally;
use crate::search::values::{refute, values};
use cnf::Formula;
use heuristics::{Constants, GlueAverages, Mode, ModeSchedule, Round};
use kernel::{Closed, Cube, Order, SearchKernel};
use std::alloc::{AllocError, Global};

/// The state of a search. It can be stopped at a conflict, and resumed.
pub struct FocusedSearch {
    pub(crate) constants: Constants,
    /// The clauses and the trail. Who changes it leaves it as it was, where the search is to go on.
    pub kernel: SearchKernel,
    /// How many conflicts above level 0 were counted.
    pub(crate) conflicts: u32,
    /// How many of these were counted in stable mode.
    pub(crate) stable_conflicts: u32,
    /// How many literals were decided in stable mode, also those that were taken back.
    pub(crate) decided: u64,
    /// The lines learnt, also those of clauses that were forgotten.
    pub(crate) lines: LineLog,
    /// The marks of these lines.
    pub(crate) marks: Vec<Mark>,
    /// The decision heuristic.
    pub(crate) decisions: Decisions,
    /// The averages of glues, by which the search restarts.
    pub(crate) averages: GlueAverages,
    /// The last conflict at which it restarted, or a round ended.
    pub(crate) restarted: u32,
    /// The current mode, and when it switches.
    pub(crate) pace: ModeSchedule,
    /// The current round, and when it ends.
    pub(crate) round: Round,
    /// Room for the analysis of conflicts.
    pub(crate) analysis: Analysis,
    /// Room for the hints of units.
    pub(crate) unit_hints: UnitHints,
    /// What the kernel doesn't count.
    pub(crate) tally: Tally,
}

// written out, so that proofs of its owners stay short (docs/PROVING.md)
impl Drop for FocusedSearch {
    fn drop(self) {
        let FocusedSearch {
            constants: _,
            kernel: _,
            conflicts: _,
            stable_conflicts: _,
            decided: _,
            lines: _,
            marks: _,
            decisions: _,
            averages: _,
            restarted: _,
            pace: _,
            round: _,
            analysis: _,
            unit_hints: _,
            tally: _,
        } = self;
    }
}

/// How a search stops.
#[derive(Drop)]
pub enum Stop {
    /// With an outcome, before it has counted as many conflicts as it may.
    Ended(Outcome<LineLog>),
    /// At the last conflict that it may count, which isn't learnt from.
    Spent,
}

/// 1 in stable mode.
pub(crate) fn if_stable(mode: Mode) -> u32
    ensures { result ≡ (if is_restarting (mode_of mode) then 0 else 1) }
{
    if mode.is_restarting() { 0 } else { 1 }
}

impl FocusedSearch {
    /// A search of a formula, before its first cube, which keeps the lines that it learns, or
    /// doesn't.
    pub fn open(
        alloc: Global,
        formula: &Formula,
        constants: Constants,
        keeps: bool,
    ) -> Result<FocusedSearch, AllocError>
        ensures ready { IfOk result (λ s. IsReady ByPlace formula.now s.kernel) }
        ensures equipped { IfOk result IsEquipped }
        ensures constants { IfOk result (λ s. s.constants ≡ constants) }
    {
        let units = Search::Focused.units(alloc, formula)?;
        let kernel = open_kernel(alloc, formula, &units, Order::ByPlace)?;
        let vars = kernel.vars();
        let decisions = Decisions::open(alloc, &kernel, constants)?;
        let analysis = Analysis::open(alloc, vars)?;
        let averages = GlueAverages::open(alloc, constants)?;
        Ok(FocusedSearch {
            constants,
            kernel,
            conflicts: 0,
            stable_conflicts: 0,
            decided: 0,
            lines: LineLog::new(alloc, keeps),
            marks: Vec::new(alloc),
            decisions,
            averages,
            restarted: 0,
            pace: ModeSchedule::first(constants),
            round: Round::first(constants),
            analysis,
            unit_hints: UnitHints::none(alloc),
            tally: Tally::none(),
        })
    }

    /// Goes over to a cube, of which nothing is counted, learnt or saved yet. It takes time by what
    /// the last cube changed.
    pub fn begin(&mut self, cube: &Cube) -> Result<(), AllocError>
        requires over { self.old.kernel.out_of_memory ≡ false → IsOver self.old.kernel.vars cube.now }
        requires equipped { IsEquipped self.old }
        ensures { OnOk result ((F : Formula) → IsReady ByPlace F self.old.kernel → Begins F self.old.constants cube.now self.new) }
    {
        self.decisions.release(&self.kernel, 0)?;
        self.decisions.begin_again();
        self.kernel.restart(cube)?;
        self.conflicts = 0;
        self.stable_conflicts = 0;
        self.decided = 0;
        self.lines.clear();
        self.marks.clear();
        self.averages.begin_again();
        self.restarted = 0;
        self.pace = ModeSchedule::first(self.constants);
        self.round = Round::first(self.constants);
        Ok(())
    }

    /// How much was done in all cubes so far.
    pub fn counts(&self) -> Counts {
        Counts {
            restarts: self.averages.restarts(),
            minimised: self.analysis.removing.removed(),
            ..self.tally.counts(self.kernel.counts())
        }
    }

    /// The outcome of the cube that was begun.
    pub(crate) fn run<W: Watcher>(
        &mut self,
        budget: u32,
        watcher: &W,
    ) -> Result<Outcome<LineLog>, AllocError>
        requires focusing { IsFocusing self.old }
        requires units { HasUnits self.old }
        requires counted { (self.old.conflicts < budget) × (budget ≤ max_focused) }
        ensures runs { IfOk result (λ o. (saved : Assignment) → HasSaved self.old saved →
            RunsTo self.old.constants (formula_of self.old.kernel) budget (state_of self.old saved) (outcome_of o) self.new.decided) }
        ensures kept { OnOk result (Continues self.old self.new) }
    {
        match self.run_to(budget, watcher)? {
            Stop::Ended(outcome) => Ok(outcome),
            Stop::Spent => Ok(Outcome::Exhausted(self.split()?)),
        }
    }

    /// As `run`, from the conflict at which the search was stopped: that isn't counted again.
    pub fn resume<W: Watcher>(
        &mut self,
        budget: u32,
        watcher: &W,
    ) -> Result<Outcome<LineLog>, AllocError>
        requires focusing { IsFocusing self.old }
        requires units { HasUnits self.old }
        requires counted { (self.old.conflicts < budget) × (budget ≤ max_focused) }
        ensures runs { IfOk result (λ o. (saved : Assignment) → HasSaved self.old saved →
            RunsTo self.old.constants (formula_of self.old.kernel) budget (state_of self.old saved) (outcome_of o) self.new.decided) }
        ensures kept { OnOk result (Continues self.old self.new) }
    {
        self.tally.resume();
        self.run(budget, watcher)
    }

    /// The outcome of a cube, with this budget of conflicts.
    pub fn solve<W: Watcher>(
        &mut self,
        cube: &Cube,
        budget: u32,
        watcher: &W,
    ) -> Result<Outcome<LineLog>, AllocError>
        requires over { self.old.kernel.out_of_memory ≡ false → IsOver self.old.kernel.vars cube.now }
        requires equipped { IsEquipped self.old }
        requires ready { (F : Formula) × IsReady ByPlace F self.old.kernel }
        requires budget { (1 ≤ budget) × (budget ≤ max_focused) }
        ensures runs { IfOk result (λ o. (F : Formula) (B : ℕ) → IsReady ByPlace F self.old.kernel → budget ≡ budget_within max_focused B cube.now →
            RunsFocused self.old.constants F B cube.now (outcome_of o)) }
        ensures kept { OnOk result (IsKept self.old self.new) }
    {
        self.begin(cube)?;
        self.run(budget, watcher)
    }

    /// Goes on up to the conflict of this number, or to an outcome before it. At the conflict the
    /// search may go on to a later one.
    pub fn run_to<W: Watcher>(&mut self, last: u32, watcher: &W) -> Result<Stop, AllocError>
        requires focusing { IsFocusing self.old }
        requires units { HasUnits self.old }
        requires counted { (self.old.conflicts < last) × (last ≤ max_focused) }
        ensures stops { IfOk result (λ stop. (saved : Assignment) → HasSaved self.old saved →
            Stops self.old.constants (formula_of self.old.kernel) last (state_of self.old saved) stop self.new) }
        ensures spent { IfOk result (λ stop. stop ≡ Spent → IsSpent last self.new) }
        ensures kept { OnOk result (Continues self.old self.new) }
    {
        let mut told = self.counts();
        'steps: loop {
            if let Some(stop) = self.step(last)? {
                return Ok(stop);
            }
            told = tell(watcher, self.counts(), told)?;
        }
    }

    /// Propagation, the units, and what follows the answer.
    fn step(&mut self, last: u32) -> Result<Option<Stop>, AllocError>
        requires focusing { IsFocusing self.old }
        requires units { HasUnits self.old }
        requires counted { (self.old.conflicts < last) × (last ≤ max_focused) }
        ensures step { IfOk result (λ r. (saved : Assignment) → HasSaved self.old saved → IsFocusedSearchStep last self.old saved r self.new) }
        ensures units { IfOk result (λ r. r ≡ None → HasUnits self.new) }
        ensures kept { OnOk result (Continues self.old self.new) }
    {
        match self.close()? {
            Closed::Quiet => self.on_quiet(),
            Closed::Conflict(number) => self.on_conflict(number, last),
        }
    }

    /// Propagation, and the units where it ends at level 0.
    pub(crate) fn close(&mut self) -> Result<Closed, AllocError>
        requires focusing { IsFocusing self.old }
        requires units { HasUnits self.old }
        ensures { IfOk result (λ a. Closes self.old (closed_of a) self.new) }
    {
        let from = self.kernel.trail().len();
        let closed = self.kernel.close()?;
        self.settle(from)?;
        Ok(closed)
    }

    /// Where propagation came to rest: decides the held free variable of greatest score, or gives
    /// the model where none is free.
    fn on_quiet(&mut self) -> Result<Option<Stop>, AllocError>
        requires focusing { IsFocusing self.old }
        requires quiet { Propagates by_place self.old.kernel.clauses self.old.kernel.trail quiet self.old.kernel.trail }
        ensures next { IfOk result (λ r. (saved : Assignment) (last : ℕ) → self.old.conflicts < last → HasSaved self.old saved → Follows last quiet self.old saved r self.new) }
        ensures kept { OnOk result (Continues self.old self.new) }
    {
        match self.decisions.best_free(&self.kernel) {
            None => {
                let alloc = self.lines.allocator();
                let model = values(alloc, &self.kernel)?;
                Ok(Some(Stop::Ended(Outcome::Model(model))))
            }
            Some(var) => {
                self.kernel.decide(self.decisions.literal(var));
                self.decided += u64::from(if_stable(self.pace.mode()));
                let _trail = self.kernel.trail(); // it ensures what the proof needs of the trail
                Ok(None)
            }
        }
    }

    /// A conflict at level 0 refutes the cube, one above it is counted; the search stops at the last
    /// one that it may count.
    fn on_conflict(&mut self, number: u64, last: u32) -> Result<Option<Stop>, AllocError>
        requires focusing { IsFocusing self.old }
        requires units { HasUnits self.old }
        requires conflict { least_false (literals self.old.kernel.trail) self.old.kernel.clauses ≡ Some number }
        requires counted { (self.old.conflicts < last) × (last ≤ max_focused) }
        ensures next { IfOk result (λ r. (saved : Assignment) → HasSaved self.old saved → Follows last (conflict number) self.old saved r self.new) }
        ensures kept { OnOk result (Continues self.old self.new) }
    {
        if self.kernel.level() == 0 {
            return Ok(Some(Stop::Ended(self.refuted(number)?)));
        }
        if self.conflicts + 1 == last {
            return Ok(Some(Stop::Spent));
        }
        self.learn_from(number)?;
        Ok(None)
    }

    /// A conflict at level 0 refutes the cube.
    pub(crate) fn refuted(&mut self, number: u64) -> Result<Outcome<LineLog>, AllocError>
        requires focusing { IsFocusing self.old }
        requires conflict { least_false (literals self.old.kernel.trail) self.old.kernel.clauses ≡ Some number }
        ensures refuted { IfOk result (λ o. outcome_of o
            ≡ refuted (self.old.lines ++ learn self.old.kernel.clauses self.old.kernel.trail number ∷ [])) }
        ensures decided { self.new.decided ≡ self.old.decided }
        ensures kept { OnOk result (Continues self.old self.new) }
    {
        refute(
            &self.kernel,
            &mut self.analysis.scratch,
            &mut self.analysis.learnt,
            &mut self.lines,
            number,
        )
    }

    /// The variable in which the cube is exhausted: of the held ones that don't stand at level 0, the
    /// one of greatest score. It goes back there.
    fn split(&mut self) -> Result<u32, AllocError>
        requires focusing { IsFocusing self.old }
        requires level { 1 ≤ current_level self.old.kernel.trail }
        ensures splits { IfOk result (λ x. (saved : Assignment) → x ≡ splits_on (formula_of self.old.kernel) (state_of self.old saved)) }
        ensures decided { self.new.decided ≡ self.old.decided }
        ensures kept { OnOk result (Continues self.old self.new) }
    {
        let kept = count_up_to(&self.kernel, 0);
        self.decisions.release(&self.kernel, kept)?;
        self.kernel.back_to(0);
        Ok(self.decisions.best_free(&self.kernel).unwrap_or(0))
    }
}
