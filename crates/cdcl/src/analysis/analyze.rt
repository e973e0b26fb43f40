//! What a conflict above level 0 teaches the focused search: the order of the steps of its analysis.
//! `Lessons` of `theory` is its definition.
ghost use Rattle.std.specs.Prelude.{◌≡◌, ◌<◌, ◌≤◌, ◌-◌, ◌^◌, ◌∷◌, [], ℕ, Some, IfOk, OnOk, length, drop};
ghost use Rattle.theory.specs.Trails.{literals, current_level};
ghost use Rattle.theory.specs.Propagation.{least_false, clause_at};
ghost use Rattle.theory.specs.Learning.{back_level, learn_removing, walk, with_literals};
ghost use Rattle.theory.specs.Removing.{first_walk};
ghost use Rattle.theory.specs.Lessons.{lesson_of};
ghost use Rattle.theory.specs.Scores.{is_seen};
ghost use Rattle.cdcl.specs.Learnt.{line_of};
ghost use Rattle.cdcl.specs.Marks.{IsSet, IsClear};
ghost use Rattle.cdcl.specs.Numbers.{is_one_of};
ghost use Rattle.cdcl.specs.Removing.{removable_of, HasRoomFor};

use crate::analysis::below::{wait_for_removable, walk_below};
use crate::analysis::current_level::walk_current;
use crate::analysis::first_uip::{Learnt, put_conflict, take_up};
use crate::analysis::glue::glue;
use crate::analysis::marks::{AnalysisScratch, Marks};
use crate::analysis::minimize::Minimizer;
use crate::analysis::numbers::Numbers;
use crate::analysis::reasons::see_reasons;
use crate::analysis::seen::see_all;
use kernel::SearchKernel;
use std::alloc::{AllocError, Global};

/// Analysis of one conflict after the other, in memory that is used again.
pub(crate) struct Analysis {
    pub(crate) scratch: AnalysisScratch,
    /// What the last conflict teaches.
    pub(crate) learnt: Learnt,
    /// How many of the line's hints, the last ones, are clauses that were resolved at the current
    /// level.
    pub(crate) resolved: usize,
    /// The variables that the last conflict has seen.
    pub(crate) seen: Numbers,
    /// The levels of the clause that was learnt last.
    pub(crate) levels: Numbers,
    /// Which literals are removable.
    pub(crate) removing: Minimizer,
}

// written out, so that proofs of its owners stay short (docs/PROVING.md)
impl Drop for Analysis {
    fn drop(self) {
        let Analysis {
            scratch: _,
            learnt: _,
            resolved: _,
            seen: _,
            levels: _,
            removing: _,
        } = self;
    }
}

/// Makes the empty set what a conflict's literals come to: by resolution over the current level,
/// whose clauses' variables are seen, and then below it on what is removable or of level 0. It
/// gives how many clauses were resolved at the current level.
fn resolve_short(
    kernel: &SearchKernel,
    marks: &mut Marks,
    removing: &mut Minimizer,
    seen: &mut Numbers,
    hints: &mut Vec<u64>,
    conflict: u64,
) -> Result<usize, AllocError>
    requires conflict { least_false (literals kernel.now.trail) kernel.now.clauses ≡ Some conflict }
    requires above { 1 ≤ current_level kernel.now.trail }
    requires few { kernel.now.vars < 2 ^ 32 }
    requires long { kernel.now.vars < length marks.old.marked.items }
    requires clear { IsClear marks.old }
    requires room { HasRoomFor kernel.now.vars removing.old }
    requires seen { kernel.now.vars < seen.old.bound }
    ensures set { OnOk result (IsSet kernel.now (removable_of kernel.now (first_walk kernel.now.clauses kernel.now.trail conflict).0)
        (walk kernel.now.clauses kernel.now.trail (removable_of kernel.now (first_walk kernel.now.clauses kernel.now.trail conflict).0) kernel.now.trail
        (with_literals (clause_at kernel.now.clauses conflict) []) (conflict ∷ [])).0 0 marks.new) }
    ensures done { OnOk result (marks.new.pending ≡ []) }
    ensures hints { OnOk result (hints.new.items ≡ (lesson_of kernel.now.clauses kernel.now.trail conflict).line.hints) }
    ensures resolved { IfOk result (λ r. (r ≤ length hints.new.items)
        × (drop (length hints.new.items - r) hints.new.items ≡ (lesson_of kernel.now.clauses kernel.now.trail conflict).resolved)) }
    ensures seen { OnOk result ((v : ℕ) → is_one_of seen.new.numbers v
        ≡ is_seen kernel.now.clauses kernel.now.trail (lesson_of kernel.now.clauses kernel.now.trail conflict).resolved v) }
    ensures bound { seen.new.bound ≡ seen.old.bound }
    ensures room { OnOk result (HasRoomFor kernel.now.vars removing.new) }
{
    let _trail = kernel.trail(); // it ensures what the proof needs of the trail
    put_conflict(kernel, marks, conflict)?;
    hints.clear();
    hints.push(conflict)?;
    walk_current(kernel, marks, hints, conflict)?;
    let resolved = hints.len();
    see_all(kernel, seen, &marks.seen)?;
    removing.ask_for_all(kernel, marks)?;
    let before = marks.pending.far_count();
    wait_for_removable(kernel, marks, removing)?;
    removing.add_removed(marks.pending.far_count().saturating_sub(before));
    walk_below(kernel, marks, hints, conflict)?;
    hints.reverse();
    Ok(resolved)
}

impl Analysis {
    /// Room for the variables 1 to `vars`.
    pub(crate) fn open(alloc: Global, vars: u32) -> Result<Analysis, AllocError>
        ensures seen { IfOk result (λ a. vars < a.seen.bound) }
        ensures levels { IfOk result (λ a. vars < a.levels.bound) }
        ensures removing { IfOk result (λ a. HasRoomFor vars a.removing) }
    {
        let bound = vars as usize + 1;
        let seen = Numbers::with_room(alloc, bound)?;
        let levels = Numbers::with_room(alloc, bound)?;
        let removing = Minimizer::with_room(alloc, bound)?;
        Ok(Analysis {
            scratch: AnalysisScratch::new(),
            learnt: Learnt::none(alloc),
            resolved: 0,
            seen,
            levels,
            removing,
        })
    }

    /// Takes up the line of a conflict, and which variables it has seen.
    fn take_line(&mut self, kernel: &SearchKernel, conflict: u64) -> Result<(), AllocError>
        requires conflict { least_false (literals kernel.now.trail) kernel.now.clauses ≡ Some conflict }
        requires above { 1 ≤ current_level kernel.now.trail }
        requires seen { kernel.now.vars < self.old.seen.bound }
        requires removing { HasRoomFor kernel.now.vars self.old.removing }
        ensures line { OnOk result (line_of self.new.learnt ≡ (lesson_of kernel.now.clauses kernel.now.trail conflict).line) }
        ensures level { OnOk result (self.new.learnt.level ≡ back_level kernel.now.trail (lesson_of kernel.now.clauses kernel.now.trail conflict).line.clause) }
        ensures resolved { OnOk result ((self.new.resolved ≤ length self.new.learnt.hints.items)
            × (drop (length self.new.learnt.hints.items - self.new.resolved) self.new.learnt.hints.items ≡ (lesson_of kernel.now.clauses kernel.now.trail conflict).resolved)) }
        ensures seen { OnOk result ((v : ℕ) → is_one_of self.new.seen.numbers v
            ≡ is_seen kernel.now.clauses kernel.now.trail (lesson_of kernel.now.clauses kernel.now.trail conflict).resolved v) }
        ensures bounds { (self.new.seen.bound ≡ self.old.seen.bound) × (self.new.levels.bound ≡ self.old.levels.bound) }
        ensures removing { OnOk result (HasRoomFor kernel.now.vars self.new.removing) }
    {
        let alloc = *self.learnt.hints.allocator();
        let mut marks = self.scratch.take(alloc, kernel.vars())?;
        self.resolved = resolve_short(
            kernel,
            &mut marks,
            &mut self.removing,
            &mut self.seen,
            &mut self.learnt.hints,
            conflict,
        )?;
        take_up(kernel, &mut marks, &mut self.learnt)?;
        self.scratch.put_back(marks);
        Ok(())
    }

    /// Takes up what the conflict with the clause of this number teaches, and which variables it
    /// has seen: those of the clauses that were resolved at the current level, and those of the
    /// reasons behind the learnt clause. It gives the glue of that clause.
    pub(crate) fn lesson(&mut self, kernel: &SearchKernel, conflict: u64) -> Result<u32, AllocError>
        requires conflict { least_false (literals kernel.now.trail) kernel.now.clauses ≡ Some conflict }
        requires above { 1 ≤ current_level kernel.now.trail }
        requires seen { kernel.now.vars < self.old.seen.bound }
        requires levels { kernel.now.vars < self.old.levels.bound }
        requires removing { HasRoomFor kernel.now.vars self.old.removing }
        ensures line { OnOk result (line_of self.new.learnt ≡ (lesson_of kernel.now.clauses kernel.now.trail conflict).line) }
        ensures level { OnOk result (self.new.learnt.level ≡ back_level kernel.now.trail (lesson_of kernel.now.clauses kernel.now.trail conflict).line.clause) }
        ensures glue { IfOk result (λ g. g ≡ (lesson_of kernel.now.clauses kernel.now.trail conflict).glue) }
        ensures few { IfOk result (λ g. g ≤ kernel.now.vars) }
        ensures resolved { OnOk result ((self.new.resolved ≤ length self.new.learnt.hints.items)
            × (drop (length self.new.learnt.hints.items - self.new.resolved) self.new.learnt.hints.items ≡ (lesson_of kernel.now.clauses kernel.now.trail conflict).resolved)) }
        ensures seen { OnOk result ((v : ℕ) → is_one_of self.new.seen.numbers v
            ≡ is_seen kernel.now.clauses kernel.now.trail (lesson_of kernel.now.clauses kernel.now.trail conflict).seen v) }
        ensures bounds { (self.new.seen.bound ≡ self.old.seen.bound) × (self.new.levels.bound ≡ self.old.levels.bound) }
        ensures removing { OnOk result (HasRoomFor kernel.now.vars self.new.removing) }
    {
        let _trail = kernel.trail(); // it ensures what the proof needs of the trail
        self.take_line(kernel, conflict)?;
        see_reasons(kernel, &mut self.seen, &self.learnt.clause)?;
        let glue = glue(kernel, &mut self.levels, &self.learnt.clause)?;
        Ok(glue)
    }
}
