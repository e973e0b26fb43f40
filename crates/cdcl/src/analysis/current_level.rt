//! The walk over the entries of the current level, back to the first unique implication point.
ghost use Rattle.std.specs.Prelude.{◌≡◌, ◌≤◌, ◌<◌, ◌^◌, ◌∷◌, [], OnOk, Some, length, reverse};
ghost use Rattle.theory.specs.Trails.{current_level};
ghost use Rattle.theory.specs.Propagation.{clause_at};
ghost use Rattle.theory.specs.Learning.{with_literals};
ghost use Rattle.theory.specs.Removing.{first_walk};
ghost use Rattle.cdcl.specs.Marks.{IsSet, HaveMet, latest_from};

use crate::analysis::first_uip::look_at;
use crate::analysis::marks::Marks;
use kernel::SearchKernel;
use std::alloc::AllocError;

/// Looks at the places of the set that are of the current level, from the end of the trail. Those
/// of level 0 go on waiting.
pub(crate) fn walk_current(
    kernel: &SearchKernel,
    marks: &mut Marks,
    hints: &mut Vec<u64>,
    conflict: u64,
) -> Result<(), AllocError>
    requires few { kernel.now.vars < 2 ^ 32 }
    requires above { 1 ≤ current_level kernel.now.trail }
    requires set { IsSet kernel.now [] (with_literals (clause_at kernel.now.clauses conflict) []) (length kernel.now.trail) marks.old }
    requires hints { hints.old.items ≡ conflict ∷ [] }
    ensures set { OnOk result (IsSet kernel.now [] (first_walk kernel.now.clauses kernel.now.trail conflict).0 (latest_from kernel.now.trail) marks.new) }
    ensures hints { OnOk result (reverse hints.new.items ≡ (first_walk kernel.now.clauses kernel.now.trail conflict).1) }
    ensures met { OnOk result (HaveMet kernel.now.clauses hints.old.items marks.old → HaveMet kernel.now.clauses hints.new.items marks.new) }
{
    let trail = kernel.trail();
    let level = kernel.level();
    while let Some(place) = marks.pending.pop() {
        let entry = trail[place];
        if entry.level < level {
            marks.pending.push_far(place)?;
            return Ok(());
        }
        look_at(kernel, marks, hints, level, entry)?;
    }
    Ok(())
}
