//! Analysis of a conflict: resolution back to the first unique implication point.
ghost use Rattle.std.specs.Prelude.{◌≡◌, ℕ, ◌<◌, ◌≤◌, ◌^◌, ◌++◌, ◌∷◌, [], All, OnOk, Some, length, reverse, not, filter, slice_get, slice_index_or, true, false};
ghost use Rattle.theory.specs.Literals.{Clause};
ghost use Rattle.theory.specs.Trails.{literals, entry_of, current_level};
ghost use Rattle.theory.specs.Propagation.{least_false, clause_at};
ghost use Rattle.theory.specs.Learning.{with_literals, walk, learn, is_of_cube, back_level};
ghost use Rattle.cdcl.specs.Marks.{IsSet, IsClear, CanLookAt, Resolves, HaveMet, is_open, negation_of};
ghost use Rattle.cdcl.specs.Learnt.{line_of};

use crate::analysis::level::back_level;
use crate::analysis::marks::{AnalysisScratch, Marks, put_all, reason_used, resolve};
use cnf::{Lit, put_last};
use kernel::{Entry, SearchKernel};
use std::alloc::{AllocError, Global};

/// What a conflict teaches. It takes up one conflict after the other, and so keeps its memory.
#[derive(Drop)]
pub struct Learnt {
    /// The learnt clause, by rising variable.
    pub clause: Vec<Lit>,
    /// The numbers of the clauses that it was resolved from: the reasons in the order of the trail,
    /// then the conflict.
    pub hints: Vec<u64>,
    /// The level to go back to.
    pub level: u32,
}

impl Learnt {
    /// Nothing yet. It takes no memory.
    pub(crate) fn none(alloc: Global) -> Learnt {
        Learnt {
            clause: Vec::new(alloc),
            hints: Vec::new(alloc),
            level: 0,
        }
    }
}

/// Puts the literals of a conflict into the empty set.
pub(crate) fn put_conflict(
    kernel: &SearchKernel,
    marks: &mut Marks,
    conflict: u64,
) -> Result<(), AllocError>
    requires conflict { least_false (literals kernel.now.trail) kernel.now.clauses ≡ Some conflict }
    requires few { kernel.now.vars < 2 ^ 32 }
    requires long { kernel.now.vars < length marks.old.marked.items }
    requires clear { IsClear marks.old }
    ensures set { OnOk result (IsSet kernel.now [] (with_literals (clause_at kernel.now.clauses conflict) []) (length kernel.now.trail) marks.new) }
    ensures met { OnOk result (HaveMet kernel.now.clauses (conflict ∷ []) marks.new) }
{
    let _trail = kernel.trail(); // it ensures what the proof needs of the trail
    let level = kernel.level();
    put_all(kernel, marks, level, kernel.arranged(conflict))?;
    Ok(())
}

/// Looks at the entry whose place came last: where the set is resolved on it, resolves with its
/// reason, and puts that behind the hints.
pub(crate) fn look_at(
    kernel: &SearchKernel,
    marks: &mut Marks,
    hints: &mut Vec<u64>,
    level: u32,
    entry: Entry,
) -> Result<(), AllocError>
    requires level { level ≡ current_level kernel.now.trail }
    requires marks { CanLookAt kernel.now entry marks.old }
    ensures set { OnOk result ((S : Clause) → (bound : ℕ) → slice_get kernel.now.trail bound ≡ Some entry → is_open kernel.now.trail [] S (Some entry) ≡ true
        → IsSet kernel.now [] S bound marks.old → Resolves kernel.now [] entry S bound hints.old.items marks.new hints.new.items) }
    ensures met { OnOk result (HaveMet kernel.now.clauses hints.old.items marks.old → HaveMet kernel.now.clauses hints.new.items marks.new) }
{
    if let Some(number) = reason_used(marks, entry) {
        resolve(kernel, marks, level, entry, kernel.arranged(number))?;
        put_last(hints, number)?;
    }
    Ok(())
}

/// Looks at the places of the set from the end of the trail. The places between are passed over.
fn walk(
    kernel: &SearchKernel,
    marks: &mut Marks,
    hints: &mut Vec<u64>,
    conflict: u64,
) -> Result<(), AllocError>
    requires few { kernel.now.vars < 2 ^ 32 }
    requires set { IsSet kernel.now [] (with_literals (clause_at kernel.now.clauses conflict) []) (length kernel.now.trail) marks.old }
    requires hints { hints.old.items ≡ conflict ∷ [] }
    ensures set { OnOk result (IsSet kernel.now []
        (walk kernel.now.clauses kernel.now.trail [] kernel.now.trail (with_literals (clause_at kernel.now.clauses conflict) []) (conflict ∷ [])).0
        0 marks.new) }
    ensures done { OnOk result (marks.new.pending ≡ []) }
    ensures hints { OnOk result (reverse hints.new.items
        ≡ (walk kernel.now.clauses kernel.now.trail [] kernel.now.trail (with_literals (clause_at kernel.now.clauses conflict) []) (conflict ∷ [])).1) }
    ensures met { OnOk result (HaveMet kernel.now.clauses hints.old.items marks.old → HaveMet kernel.now.clauses hints.new.items marks.new) }
{
    let trail = kernel.trail();
    let level = kernel.level();
    while let Some(place) = marks.pending.pop() {
        look_at(kernel, marks, hints, level, trail[place])?;
    }
    Ok(())
}

/// Puts the negation of a variable's literal on the trail behind the others, unless it is the
/// cube's.
fn put_negation(kernel: &SearchKernel, clause: &mut Vec<Lit>, var: u32) -> Result<(), AllocError>
    ensures { OnOk result (clause.new.items ≡ clause.old.items ++ negation_of (entry_of kernel.now.trail var)) }
{
    if let Some(entry) = kernel.entry(var) {
        if entry.level > 0 || entry.reason.is_some() {
            put_last(clause, entry.lit.negated())?;
        }
    }
    Ok(())
}

/// Leaves those of the variables that are marked, in their order.
fn keep_marked(seen: &mut Vec<u32>, marked: &[bool])
    requires { All (λ v. v < length marked.now) seen.old.items }
    ensures { seen.new.items ≡ filter (λ v. slice_index_or marked.now v false) seen.old.items }
{
    let mut kept = 0;
    for at in 0..seen.len() {
        let var = seen[at];
        if marked[var as usize] {
            seen[kept] = var;
            kept += 1;
        }
    }
    seen.truncate(kept);
}

/// The literals of the set without those of the cube, in place of the clause there. It leaves no
/// mark. Most variables that were seen were resolved away again, so they go before the others are
/// sorted.
fn take_clause(
    kernel: &SearchKernel,
    marks: &mut Marks,
    clause: &mut Vec<Lit>,
) -> Result<(), AllocError>
    requires long { kernel.now.vars < length marks.old.marked.items }
    requires seen { All (λ v. v ≤ kernel.now.vars) marks.old.seen.items }
    requires done { marks.old.pending ≡ [] }
    ensures clause { OnOk result ((S : Clause) → (bound : ℕ) → IsSet kernel.now [] S bound marks.old
        → clause.new.items ≡ filter (λ l. not (is_of_cube kernel.now.trail l)) S) }
    ensures clear { OnOk result ((S : Clause) → (bound : ℕ) → IsSet kernel.now [] S bound marks.old → IsClear marks.new) }
{
    let _trail = kernel.trail(); // it ensures what the proof needs of the trail
    keep_marked(&mut marks.seen, &marks.marked);
    marks.seen.sort_unstable();
    clause.clear();
    for at in 0..marks.seen.len() {
        let var = marks.seen[at];
        if marks.marked[var as usize] {
            marks.marked[var as usize] = false;
            put_negation(kernel, clause, var)?;
        }
    }
    marks.seen.clear();
    marks.current = 0;
    Ok(())
}

/// Makes the empty set what is left of the set of a conflict's literals after resolution, which has
/// seen the variables of the clauses that the hints name.
pub(crate) fn resolve_conflict(
    kernel: &SearchKernel,
    marks: &mut Marks,
    conflict: u64,
    hints: &mut Vec<u64>,
) -> Result<(), AllocError>
    requires conflict { least_false (literals kernel.now.trail) kernel.now.clauses ≡ Some conflict }
    requires few { kernel.now.vars < 2 ^ 32 }
    requires long { kernel.now.vars < length marks.old.marked.items }
    requires clear { IsClear marks.old }
    ensures set { OnOk result (IsSet kernel.now []
        (walk kernel.now.clauses kernel.now.trail [] kernel.now.trail (with_literals (clause_at kernel.now.clauses conflict) []) (conflict ∷ [])).0 0 marks.new) }
    ensures done { OnOk result (marks.new.pending ≡ []) }
    ensures hints { OnOk result (hints.new.items ≡ (learn kernel.now.clauses kernel.now.trail conflict).hints) }
    ensures met { OnOk result (HaveMet kernel.now.clauses hints.new.items marks.new) }
{
    put_conflict(kernel, marks, conflict)?;
    hints.clear();
    hints.push(conflict)?;
    walk(kernel, marks, hints, conflict)?;
    hints.reverse();
    Ok(())
}

/// Takes up the clause that is left, and the level to go back to. It leaves no mark.
pub(crate) fn take_up(
    kernel: &SearchKernel,
    marks: &mut Marks,
    learnt: &mut Learnt,
) -> Result<(), AllocError>
    requires set { (S : Clause) × (bound : ℕ) × IsSet kernel.now [] S bound marks.old }
    requires done { marks.old.pending ≡ [] }
    ensures clause { OnOk result ((S : Clause) → (bound : ℕ) → IsSet kernel.now [] S bound marks.old
        → learnt.new.clause.items ≡ filter (λ l. not (is_of_cube kernel.now.trail l)) S) }
    ensures level { OnOk result (learnt.new.level ≡ back_level kernel.now.trail learnt.new.clause.items) }
    ensures hints { learnt.new.hints.items ≡ learnt.old.hints.items }
    ensures clear { OnOk result (IsClear marks.new) }
{
    take_clause(kernel, marks, &mut learnt.clause)?;
    learnt.level = back_level(kernel, &learnt.clause);
    Ok(())
}

/// The line that the conflict with the clause of this number teaches, and the level to go back to, in
/// room and in lists that are used again. The marks leave their room once a conflict and go back:
/// handed on from call to call by value, they took a fortieth of a search of parity chains.
pub(crate) fn analyze_in(
    kernel: &SearchKernel,
    scratch: &mut AnalysisScratch,
    conflict: u64,
    learnt: &mut Learnt,
) -> Result<(), AllocError>
    requires { least_false (literals kernel.now.trail) kernel.now.clauses ≡ Some conflict }
    ensures line { OnOk result (line_of learnt.new ≡ learn kernel.now.clauses kernel.now.trail conflict) }
    ensures level { OnOk result (learnt.new.level ≡ back_level kernel.now.trail (learn kernel.now.clauses kernel.now.trail conflict).clause) }
{
    let mut marks = scratch.take(*learnt.hints.allocator(), kernel.vars())?;
    resolve_conflict(kernel, &mut marks, conflict, &mut learnt.hints)?;
    take_up(kernel, &mut marks, learnt)?;
    scratch.put_back(marks);
    Ok(())
}
