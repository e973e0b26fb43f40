//! What the focused search does at a conflict that it learns from: analysis, scores, restarts, going
//! back, and at the end of a round forgetting (`reduce` in CaDiCaL) and rephasing.
ghost use Rattle.std.specs.Prelude.{◌≡◌, ◌≤◌, ◌+◌, ◌-◌, ◌++◌, ◌∷◌, [], ℕ, List, true, false, Some, IfOk, OnOk, length, drop, if◌then◌else◌};
ghost use Rattle.theory.specs.Literals.{Clause};
ghost use Rattle.theory.specs.Truth.{Assignment};
ghost use Rattle.theory.specs.Plans as plans;
ghost use Rattle.theory.specs.Trails.{literals, current_level, up_to};
ghost use Rattle.theory.specs.Propagation.{least_false};
ghost use Rattle.theory.specs.Search.{max_focused};
ghost use Rattle.theory.specs.Forgetting.{forget, with_used};
ghost use Rattle.theory.specs.Rephasing.{is_over};
ghost use Rattle.theory.specs.Focused.{saved_after};
ghost use Rattle.kernel.specs.declared.order.Order.TheVariants.{ByPlace};
ghost use Rattle.cdcl.specs.Searching.{IsSearching};
ghost use Rattle.cdcl.specs.Saving.{AgreeOutside, AreWaiting, AreKept};
ghost use Rattle.cdcl.specs.Forgetful.{late_numbers};
ghost use Rattle.cdcl.specs.Focusing.{HasSaved, IsFocusing, IsTaught, CanForget, CanWeigh, Weighs, EndsRound, Learns, Continues};

use crate::analysis::first_uip::Learnt;
use crate::search::decisions::{Decisions, count_up_to};
use crate::search::focused::{FocusedSearch, if_stable};
use crate::search::forgetting::candidates;
use crate::search::line_marks::{Mark, mark_all_used, mark_none_used};
use heuristics::late_ones;
use kernel::SearchKernel;
use std::alloc::AllocError;

/// The level to go back to.
fn level_back(level: u32, restarts: bool) -> u32
    ensures { result ≡ (if restarts then 0 else level) }
{
    if restarts { 0 } else { level }
}

/// The last conflict that went back to level 0, where this one does or doesn't.
fn last_restart(before: u32, conflicts: u32, restarts: bool) -> u32
    ensures { result ≡ (if restarts then conflicts else before) }
{
    if restarts { conflicts } else { before }
}

/// Goes back to a level, unless it is the current one.
fn back_to(kernel: &mut SearchKernel, level: u32)
    requires memory { kernel.old.out_of_memory ≡ false }
    requires level { level ≤ current_level kernel.old.trail }
    ensures { kernel.new ≡ record kernel.old { trail = up_to kernel.old.trail level } }
{
    let _trail = kernel.trail(); // it ensures what the proof needs of the trail
    if level < kernel.level() {
        kernel.back_to(level);
    }
}

/// Goes back to a line's level, where its clause gets the next number, and from there to level 0,
/// if the search restarts or a round ends.
fn go_back(
    kernel: &mut SearchKernel,
    decisions: &mut Decisions,
    learnt: &Learnt,
    restarts: bool,
) -> Result<u64, AllocError>
    requires searching { IsSearching ByPlace kernel.old }
    requires waiting { AreWaiting kernel.old.vars (literals kernel.old.trail) decisions.old }
    requires taught { (n : ℕ) × IsTaught kernel.old n learnt.now.clause.items learnt.now.level }
    ensures number { IfOk result (λ n. n ≡ length kernel.old.clauses + 1) }
    ensures kernel { OnOk result (kernel.new ≡ record kernel.old {
      clauses = kernel.old.clauses ++ learnt.now.clause.items ∷ [];
      trail = up_to kernel.old.trail (if restarts then 0 else learnt.now.level);
    }) }
    ensures waiting { OnOk result (AreWaiting kernel.old.vars (literals (up_to kernel.old.trail (if restarts then 0 else learnt.now.level))) decisions.new) }
    ensures saved { OnOk result (AgreeOutside kernel.old.vars (literals (up_to kernel.old.trail (if restarts then 0 else learnt.now.level)))
        decisions.new.saved (saved_after kernel.old.vars kernel.old.trail decisions.old.saved)) }
    ensures kept { OnOk result (AreKept decisions.old decisions.new) }
{
    let level = level_back(learnt.level, restarts);
    let kept = count_up_to(kernel, level);
    decisions.release(kernel, kept)?;
    kernel.back_to(learnt.level);
    let number = kernel.learn(&learnt.clause)?;
    back_to(kernel, level);
    Ok(number)
}

/// The numbers of all but the first quarter of the clauses that may be forgotten, of those that were
/// learnt before the last one, which has this number. They have these marks.
fn late_learnt(
    kernel: &SearchKernel,
    number: u64,
    marks: &Vec<Mark>,
    kept_glue: u32,
) -> Result<Vec<u64>, AllocError>
    requires last { number ≡ length kernel.now.clauses }
    requires learnt { CanForget kernel.now (length marks.now.items) }
    ensures { IfOk result (λ numbers. (c : plans.Constants) (K : List Clause) (clause : Clause) → c.kept_glue ≡ kept_glue → kernel.now.clauses ≡ K ++ clause ∷ [] →
        numbers.items ≡ late_numbers c kernel.now.trail marks.now.items K) }
{
    let alloc = *marks.allocator();
    let from = number - marks.len() as u64;
    let candidates = candidates(alloc, kernel, from, marks, kept_glue)?;
    let numbers = late_ones(alloc, &candidates)?;
    Ok(numbers)
}

/// Forgets these clauses, and answers which they are.
fn forget(
    kernel: &mut SearchKernel,
    number: u64,
    marks: &Vec<Mark>,
    kept_glue: u32,
) -> Result<Vec<u64>, AllocError>
    requires last { number ≡ length kernel.old.clauses }
    requires learnt { CanForget kernel.old (length marks.now.items) }
    ensures numbers { IfOk result (λ numbers. (c : plans.Constants) (K : List Clause) (clause : Clause) → c.kept_glue ≡ kept_glue → kernel.old.clauses ≡ K ++ clause ∷ [] →
        numbers.items ≡ late_numbers c kernel.old.trail marks.now.items K) }
    ensures kernel { OnOk result ((c : plans.Constants) (K : List Clause) (clause : Clause) → c.kept_glue ≡ kept_glue → kernel.old.clauses ≡ K ++ clause ∷ [] →
        kernel.new ≡ record kernel.old { clauses = forget (late_numbers c kernel.old.trail marks.now.items K) 1 K ++ clause ∷ [] }) }
{
    let numbers = late_learnt(kernel, number, marks, kept_glue)?;
    kernel.forget(&numbers)?;
    Ok(numbers)
}

impl FocusedSearch {
    /// A conflict that is learnt from.
    pub(crate) fn learn_from(&mut self, number: u64) -> Result<(), AllocError>
        requires focusing { IsFocusing self.old }
        requires conflict { least_false (literals self.old.kernel.trail) self.old.kernel.clauses ≡ Some number }
        requires level { 1 ≤ current_level self.old.kernel.trail }
        requires counted { self.old.conflicts + 1 ≤ max_focused }
        ensures next { OnOk result ((saved : Assignment) → HasSaved self.old saved → Learns self.old saved number self.new) }
        ensures kept { OnOk result (Continues self.old self.new) }
    {
        let glue = self.analysis.lesson(&self.kernel, number)?;
        self.mark_resolved();
        let restarts = self.update_heuristics(glue)?;
        let last = go_back(
            &mut self.kernel,
            &mut self.decisions,
            &self.analysis.learnt,
            restarts,
        )?;
        let forgets = self.end_round_where_over(last)?;
        let _trail = self.kernel.trail(); // it ensures what the proof needs of the kernel
        let learnt = &self.analysis.learnt;
        self.lines.push(&learnt.clause, &learnt.hints, &forgets)?;
        self.marks.push(Mark::fresh(glue))?;
        Ok(())
    }

    /// Marks as used the learnt clauses that were resolved at the current level.
    fn mark_resolved(&mut self)
        requires { self.old.analysis.resolved ≤ length self.old.analysis.learnt.hints.items }
        ensures marks { self.new.marks.items ≡ with_used
            (drop (length self.old.analysis.learnt.hints.items - self.old.analysis.resolved) self.old.analysis.learnt.hints.items)
            (self.old.kernel.first + 1) self.old.marks.items }
        ensures same { self.new ≡ record self.old { marks = self.new.marks } }
    {
        let hints = &self.analysis.learnt.hints;
        let resolved = &hints[hints.len() - self.analysis.resolved..];
        mark_all_used(&mut self.marks, self.kernel.first_count(), resolved);
    }

    /// Bumps the scores of seen variables, counts the conflict, updates the glue averages by the glue
    /// of its line, and answers whether the search goes back to level 0: where it restarts, or the
    /// round is over.
    fn update_heuristics(&mut self, glue: u32) -> Result<bool, AllocError>
        requires { CanWeigh self.old glue }
        ensures { IfOk result (λ restarts. Weighs self.old glue restarts self.new) }
    {
        let mode = self.pace.mode();
        self.decisions
            .scores
            .learn_from(self.analysis.seen.list(), mode)?;
        self.conflicts += 1;
        self.stable_conflicts += if_stable(mode);
        let are_greater = self
            .averages
            .take_glue(glue, mode, self.restarted, self.conflicts);
        let restarts = self.round.is_over(self.conflicts) || are_greater;
        self.restarted = last_restart(self.restarted, self.conflicts, restarts);
        Ok(restarts)
    }

    /// The end of a round, if it is over, where the clause that was learnt last has this number. The
    /// answer is the numbers of what is forgotten.
    fn end_round_where_over(&mut self, last: u64) -> Result<Vec<u64>, AllocError>
        requires last { last ≡ length self.old.kernel.clauses }
        requires learnt { CanForget self.old.kernel (length self.old.marks.items) }
        ensures ends { IfOk result (λ forgets. is_over self.old.round self.old.conflicts ≡ true → EndsRound self.old forgets.items self.new) }
        ensures goes_on { IfOk result (λ forgets. is_over self.old.round self.old.conflicts ≡ false → (forgets.items ≡ []) × (self.new ≡ self.old)) }
    {
        if self.round.is_over(self.conflicts) {
            return self.end_round(last);
        }
        Ok(Vec::new(self.lines.allocator()))
    }

    /// The end of a round: clauses are forgotten that were learnt before the last one, which has this
    /// number; saved values change, and a mode that is over gives way. The answer is the numbers of
    /// what is forgotten.
    fn end_round(&mut self, last: u64) -> Result<Vec<u64>, AllocError>
        requires last { last ≡ length self.old.kernel.clauses }
        requires learnt { CanForget self.old.kernel (length self.old.marks.items) }
        requires over { is_over self.old.round self.old.conflicts ≡ true }
        ensures { IfOk result (λ forgets. EndsRound self.old forgets.items self.new) }
    {
        let forgets = forget(
            &mut self.kernel,
            last,
            &self.marks,
            self.constants.kept_glue,
        )?;
        mark_none_used(&mut self.marks);
        self.decisions.rephase(self.round.change());
        self.round.advance(self.constants, self.conflicts);
        let mode = self.pace.mode();
        self.pace.end_round(self.conflicts);
        self.tally.add_round(mode, self.pace.mode());
        Ok(forgets)
    }
}
