//! Which assumptions make one of them false.
ghost use Rattle.std.specs.Prelude.{◌≡◌, ◌≢◌, ◌<◌, ◌≤◌, ◌+◌, ℕ, true, false, length, All, slice_index_or, IfOk, OnOk};
ghost use Rattle.theory.specs.Literals.{Literal, has, negated, same};
ghost use Rattle.theory.specs.Trails.{literals};
ghost use Rattle.session.specs.Needing.{IsNeeded, IsWalked};

use cnf::Lit;
use kernel::SearchKernel;
use std::alloc::{AllocError, Global};

/// Marks the variables of the literals of a reason but the one that it is for.
fn mark_others(marked: &mut [bool], reason: &[Lit], lit: Lit)
    requires { All (λ l. l.var < length marked.old) reason.now }
    ensures others { (l : Literal) → has reason.now l ≡ true → same lit l ≡ false → slice_index_or marked.new l.var false ≡ true }
    ensures more { (v : ℕ) → slice_index_or marked.old v false ≡ true → slice_index_or marked.new v false ≡ true }
{
    for other in reason {
        let other = *other;
        if !lit.same(&other) {
            marked[other.var() as usize] = true;
        }
    }
}

/// Looks at the entry at a place: if its variable is marked, the literals of its reason are marked in
/// its place, or it is needed itself. At level 0 those without a reason hold without any decision.
fn look_at(
    kernel: &SearchKernel,
    marked: &mut [bool],
    core: &mut Vec<Lit>,
    place: usize,
) -> Result<(), AllocError>
    requires marked { length marked.old ≡ kernel.now.vars + 1 }
    requires place { place < length kernel.now.trail }
    ensures { OnOk result ((failed : Literal) → IsWalked kernel.now.clauses kernel.now.trail failed (place + 1) marked.old core.old.items →
        IsWalked kernel.now.clauses kernel.now.trail failed place marked.new core.new.items) }
{
    let entry = kernel.trail()[place];
    let var = entry.lit.var() as usize;
    if !marked[var] {
        return Ok(());
    }
    marked[var] = false;
    match entry.reason {
        Some(number) => mark_others(marked, kernel.arranged(number), entry.lit),
        None => {
            if entry.level > 0 {
                core.push(entry.lit)?;
            }
        }
    }
    Ok(())
}

/// A literal that is false on the trail, and behind it the decisions that its falsehood needs: back
/// over the trail, what an entry needs is the other literals of its reason. It leaves no mark that
/// wasn't there. It takes time by the trail and by the reasons that are needed.
pub(crate) fn needed(
    alloc: Global,
    kernel: &SearchKernel,
    marked: &mut [bool],
    failed: Lit,
) -> Result<Vec<Lit>, AllocError>
    requires marked { length marked.old ≡ kernel.now.vars + 1 }
    requires failed { has (literals kernel.now.trail) (negated failed) ≡ true }
    ensures { IfOk result (λ core. IsNeeded kernel.now.clauses kernel.now.trail failed core.items) }
{
    let mut core = Vec::new(alloc);
    core.push(failed)?;
    let mut place = kernel.trail().len();
    marked[failed.var() as usize] = true;
    while place > 0 {
        place -= 1;
        look_at(kernel, marked, &mut core, place)?;
    }
    Ok(core)
}
