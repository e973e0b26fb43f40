//! Which learnt clauses may be forgotten (CaDiCaL's `reduce`).
ghost use Rattle.std.specs.Prelude.{◌≡◌, ◌<◌, ◌≤◌, ◌+◌, ◌-◌, ◌^◌, ◌⊎◌, ◌||◌, ◌&&◌, not, nat_eq, nat_lt, ℕ, false, true, drop, length, All, IfOk, slice_index_or};
ghost use Rattle.theory.specs.Literals.{has_both_signs};
ghost use Rattle.theory.specs.Plans as plans;
ghost use Rattle.theory.specs.Forgetting.{candidates, forgotten, is_reason};
ghost use Rattle.cdcl.specs.Forgetful.{IsPlain};

use crate::search::line_marks::Mark;
use cnf::Lit;
use heuristics::Candidate;
use kernel::SearchKernel;
use std::alloc::{AllocError, Global};

/// Whether a learnt clause was forgotten: no other one has both literals of a variable. A forgotten
/// one has no other literals.
fn is_forgotten(clause: &[Lit]) -> bool
    requires { has_both_signs clause.now ≡ true → length clause.now ≡ 2 }
    ensures { result ≡ has_both_signs clause.now }
{
    clause.len() == 2 && clause[0].negated().same(&clause[1])
}

/// Whether a learnt clause may be forgotten.
fn may_go(clause: &[Lit], mark: Mark, kept_glue: u32, is_reason: bool) -> bool
    requires { has_both_signs clause.now ≡ true → length clause.now ≡ 2 }
    ensures { result ≡ (nat_lt kept_glue mark.glue && (not mark.used && (not (has_both_signs clause.now) && not is_reason))) }
{
    mark.glue > kept_glue && !mark.used && !is_reason && !is_forgotten(clause)
}

/// Notes that the clause of a number is a reason, if it is one of those from a number on.
fn note(reasons: &mut [bool], from: u64, number: u64)
    ensures long { length reasons.new ≡ length reasons.old }
    ensures noted { (i : ℕ) → i < length reasons.old → slice_index_or reasons.new i false
        ≡ (slice_index_or reasons.old i false || nat_eq (from + i) number) }
{
    if number >= from && ((number - from) as usize) < reasons.len() {
        reasons[(number - from) as usize] = true;
    }
}

/// Of so many clauses from a number on, whether each is a reason on the trail.
fn reasons(
    alloc: Global,
    kernel: &SearchKernel,
    from: u64,
    count: usize,
) -> Result<Vec<bool>, AllocError>
    ensures long { IfOk result (λ r. length r.items ≡ count) }
    ensures reasons { IfOk result (λ r. (i : ℕ) → i < count → slice_index_or r.items i false ≡ is_reason kernel.now.trail (from + i)) }
{
    let mut reasons = vec![in alloc; false; count]?;
    for entry in kernel.trail() {
        if let Some(number) = entry.reason {
            note(&mut reasons, from, number);
        }
    }
    Ok(reasons)
}

/// Those of the learnt clauses from a number on that may be forgotten, where they have these marks.
/// It takes time by the trail and by how many marks there are.
pub(crate) fn candidates(
    alloc: Global,
    kernel: &SearchKernel,
    from: u64,
    marks: &[Mark],
    kept_glue: u32,
) -> Result<Vec<Candidate>, AllocError>
    requires learnt { (1 ≤ from) × (from - 1 + length marks.now ≤ length kernel.now.clauses) }
    requires few { (from + length marks.now < 2 ^ 64) × (kernel.now.vars < 2 ^ 31) }
    requires plain { All (IsPlain kernel.now.vars) (drop (from - 1) kernel.now.clauses) }
    ensures { IfOk result (λ all. (c : plans.Constants) → c.kept_glue ≡ kept_glue →
        all.items ≡ candidates c kernel.now.trail from (drop (from - 1) kernel.now.clauses) marks.now) }
{
    let reasons = reasons(alloc, kernel, from, marks.len())?;
    let mut candidates = Vec::new(alloc);
    for at in 0..marks.len() {
        let number = from + at as u64;
        let clause = kernel.arranged(number);
        let mark = marks[at];
        if may_go(clause, mark, kept_glue, reasons[at]) {
            let glue = mark.glue;
            let size = clause.len() as u32;
            candidates.push(Candidate { number, glue, size })?;
        }
    }
    Ok(candidates)
}
