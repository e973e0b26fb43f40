//! The walk over the entries below the current level: it resolves on what is removable, and on what
//! is of level 0.
ghost use Rattle.std.specs.Prelude.{◌≡◌, ◌≤◌, ◌<◌, ◌^◌, ℕ, List, [], ◌∷◌, true, false, OnOk, All, length, take, reverse, slice_get, slice_index_or, Some};
ghost use Rattle.theory.specs.Literals.{Literal, Clause, has, negated, without};
ghost use Rattle.theory.specs.Trails.{literals, current_level};
ghost use Rattle.theory.specs.Status.{is_false};
ghost use Rattle.theory.specs.Propagation.{clause_at};
ghost use Rattle.theory.specs.Learning.{with_literal, with_literals, resolved, walk};
ghost use Rattle.theory.specs.Removing.{first_walk};
ghost use Rattle.cdcl.specs.Marks.{IsSet, Resolves, is_open, latest_from};
ghost use Rattle.cdcl.specs.Removing.{removable_of, IsKnown, KnowsAll, WaitsFor, CanFollow, CanResolveBelow, CanLookBelow, HasSettled, AreSettled, is_settled};

use crate::analysis::marks::Marks;
use crate::analysis::minimize::Minimizer;
use cnf::{Lit, put_last};
use kernel::{Entry, SearchKernel};
use std::alloc::AllocError;

/// Lets the place of a variable wait, if it is marked.
fn wait_for(kernel: &SearchKernel, marks: &mut Marks, var: u32) -> Result<(), AllocError>
    requires inside { var < length marks.old.marked.items }
    ensures same { (marks.new.marked ≡ marks.old.marked) × (marks.new.current ≡ marks.old.current) × (marks.new.seen ≡ marks.old.seen) }
    ensures waits { OnOk result (WaitsFor kernel.now.trail marks.old.marked.items var marks.old.pending marks.new.pending) }
{
    let _trail = kernel.trail(); // it ensures what the proof needs of the trail
    if !marks.marked[var as usize] {
        return Ok(());
    }
    if let Some(place) = kernel.place(var) {
        marks.pending.push_far(place)?;
    }
    Ok(())
}

/// Lets the places of the set's removable literals wait. Those of level 0 wait already.
pub(crate) fn wait_for_removable(
    kernel: &SearchKernel,
    marks: &mut Marks,
    removing: &Minimizer,
) -> Result<(), AllocError>
    requires above { 1 ≤ current_level kernel.now.trail }
    requires known { (S : Clause) × IsSet kernel.now [] S (latest_from kernel.now.trail) marks.old × IsKnown kernel.now S removing.now }
    ensures set { OnOk result ((S : Clause) → IsSet kernel.now [] S (latest_from kernel.now.trail) marks.old → IsKnown kernel.now S removing.now → KnowsAll kernel.now S removing.now
        → IsSet kernel.now (removable_of kernel.now S) S (latest_from kernel.now.trail) marks.new) }
{
    let _trail = kernel.trail(); // it ensures what the proof needs of the trail
    let removable = removing.removable.list();
    for at in 0..removable.len() {
        wait_for(kernel, marks, removable[at])?;
    }
    Ok(())
}

/// Puts a literal into the set, unless it is there. Then it is of level 0 or removable, so that its
/// place waits.
fn put(kernel: &SearchKernel, marks: &mut Marks, lit: Lit) -> Result<(), AllocError>
    requires marks { CanFollow kernel.now (lit ∷ []) marks.old }
    ensures set { OnOk result ((R : List Literal) → (S : Clause) → (bound : ℕ) → has (literals (take bound kernel.now.trail)) (negated lit) ≡ true
        → is_settled kernel.now.trail R S lit ≡ true → IsSet kernel.now R S bound marks.old → IsSet kernel.now R (with_literal lit S) bound marks.new) }
{
    let var = lit.var();
    if marks.marked[var as usize] {
        return Ok(());
    }
    if let Some(place) = kernel.place(var) {
        marks.marked[var as usize] = true;
        put_last(&mut marks.seen, var)?;
        marks.pending.push_far(place)?;
    }
    Ok(())
}

/// Puts the literals of a clause other than `except` into the set.
fn put_others(
    kernel: &SearchKernel,
    marks: &mut Marks,
    clause: &[Lit],
    except: Lit,
) -> Result<(), AllocError>
    requires marks { CanFollow kernel.now (without clause.now except) marks.old }
    ensures set { OnOk result ((R : List Literal) → (S : Clause) → (bound : ℕ) → is_false (literals (take bound kernel.now.trail)) (without clause.now except) ≡ true
        → AreSettled kernel.now.trail R S (without clause.now except) → IsSet kernel.now R S bound marks.old → IsSet kernel.now R (with_literals (without clause.now except) S) bound marks.new) }
{
    let count = clause.len();
    for done in 0..count {
        let lit = clause[count - 1 - done];
        if !except.same(&lit) {
            put(kernel, marks, lit)?;
        }
    }
    Ok(())
}

/// Resolves the set with the reason of an entry below the current level.
fn resolve(
    kernel: &SearchKernel,
    marks: &mut Marks,
    entry: Entry,
    reason: &[Lit],
) -> Result<(), AllocError>
    requires marks { CanResolveBelow kernel.now entry reason.now marks.old }
    ensures set { OnOk result ((R : List Literal) → (S : Clause) → (bound : ℕ) → slice_get kernel.now.trail bound ≡ Some entry → has S (negated entry.lit) ≡ true
        → is_false (literals (take bound kernel.now.trail)) (without reason.now entry.lit) ≡ true
        → AreSettled kernel.now.trail R (without S (negated entry.lit)) (without reason.now entry.lit) → IsSet kernel.now R S bound marks.old
        → IsSet kernel.now R (resolved S entry.lit reason.now) bound marks.new) }
{
    marks.marked[entry.lit.var() as usize] = false;
    put_others(kernel, marks, reason, entry.lit)?;
    Ok(())
}

/// Looks at an entry below the current level: resolves with its reason, if it has one, and puts that
/// behind the hints.
fn look_below(
    kernel: &SearchKernel,
    marks: &mut Marks,
    hints: &mut Vec<u64>,
    entry: Entry,
) -> Result<(), AllocError>
    requires marks { CanLookBelow kernel.now entry marks.old }
    ensures set { OnOk result ((R : List Literal) → (S : Clause) → (bound : ℕ) → slice_get kernel.now.trail bound ≡ Some entry → is_open kernel.now.trail R S (Some entry) ≡ true
        → HasSettled kernel.now R S entry → IsSet kernel.now R S bound marks.old → Resolves kernel.now R entry S bound hints.old.items marks.new hints.new.items) }
{
    if let Some(number) = entry.reason {
        resolve(kernel, marks, entry, kernel.arranged(number))?;
        put_last(hints, number)?;
    }
    Ok(())
}

/// Looks at the places that wait, from the current level down.
pub(crate) fn walk_below(
    kernel: &SearchKernel,
    marks: &mut Marks,
    hints: &mut Vec<u64>,
    conflict: u64,
) -> Result<(), AllocError>
    requires above { 1 ≤ current_level kernel.now.trail }
    requires set { IsSet kernel.now (removable_of kernel.now (first_walk kernel.now.clauses kernel.now.trail conflict).0)
        (first_walk kernel.now.clauses kernel.now.trail conflict).0 (latest_from kernel.now.trail) marks.old }
    requires hints { reverse hints.old.items ≡ (first_walk kernel.now.clauses kernel.now.trail conflict).1 }
    ensures set { OnOk result (IsSet kernel.now (removable_of kernel.now (first_walk kernel.now.clauses kernel.now.trail conflict).0)
        (walk kernel.now.clauses kernel.now.trail (removable_of kernel.now (first_walk kernel.now.clauses kernel.now.trail conflict).0) kernel.now.trail
        (with_literals (clause_at kernel.now.clauses conflict) []) (conflict ∷ [])).0 0 marks.new) }
    ensures done { OnOk result (marks.new.pending ≡ []) }
    ensures hints { OnOk result (reverse hints.new.items
        ≡ (walk kernel.now.clauses kernel.now.trail (removable_of kernel.now (first_walk kernel.now.clauses kernel.now.trail conflict).0) kernel.now.trail
        (with_literals (clause_at kernel.now.clauses conflict) []) (conflict ∷ [])).1) }
{
    let trail = kernel.trail();
    while let Some(place) = marks.pending.pop() {
        look_below(kernel, marks, hints, trail[place])?;
    }
    Ok(())
}
