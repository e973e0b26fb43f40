//! What the search of a run's formula begins with: the formula, or what a simplification leaves of it,
//! which each command makes anew.
ghost use Rattle.std.specs.Prelude.{IfOk};
ghost use Rattle.strategies.specs.Begun.{IsBegunBy};

use crate::said::{Said, say_no_memory};
use cdcl::Plan;
use cnf::Formula;
use cubes::Gate;
use std::alloc::Global;
use std::io::Write;
use strategies::{Begun, Unobserved, begun};

/// What a plan's search of the formula at this path begins with, or that there is no memory for it,
/// which is said. So it is where the gate stops it.
pub(crate) fn begun_for<E: Write, G: Gate>(
    alloc: Global,
    path: &str,
    formula: &Formula,
    plan: Plan,
    gate: &G,
    faults: &mut E,
) -> Result<Begun, Said>
    ensures { IfOk result (IsBegunBy formula.now plan) }
{
    match begun(alloc, formula, plan, gate, &Unobserved) {
        Ok(begun) => Ok(begun),
        Err(_) => Err(say_no_memory(faults, path)),
    }
}
