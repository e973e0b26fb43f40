//! The glue of a clause: of how many levels it has literals (Audemard and Simon, IJCAI 2009).
ghost use Rattle.std.specs.Prelude.{◌≡◌, ◌<◌, ◌≤◌, IfOk, OnOk};
ghost use Rattle.theory.specs.Trails.{current_level};
ghost use Rattle.theory.specs.Restarts.{glue};

use crate::analysis::level::level_of;
use crate::analysis::numbers::Numbers;
use cnf::Lit;
use kernel::SearchKernel;
use std::alloc::AllocError;

/// In how many levels above 0 the clause has literals. The levels are gathered in a table that is
/// used again.
pub(crate) fn glue(
    kernel: &SearchKernel,
    levels: &mut Numbers,
    clause: &[Lit],
) -> Result<u32, AllocError>
    requires { kernel.now.vars < levels.old.bound }
    ensures bound { levels.new.bound ≡ levels.old.bound }
    ensures glue { IfOk result (λ g. g ≡ glue kernel.now.trail clause.now) }
    ensures few { IfOk result (λ g. g ≤ kernel.now.vars) }
{
    let _vars = kernel.vars(); // it ensures that they are few
    let _trail = kernel.trail(); // it ensures what the proof needs of the levels
    levels.clear();
    for lit in clause {
        let level = level_of(kernel, *lit);
        if level > 0 {
            levels.insert(level)?;
        }
    }
    Ok(levels.list().len() as u32)
}
