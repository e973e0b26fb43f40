//! What searches have in common where they end.
ghost use Rattle.std.specs.Prelude.{◌≡◌, ◌++◌, ◌∷◌, [], Some, IfOk};
ghost use Rattle.theory.specs.Trails.{literals};
ghost use Rattle.theory.specs.Propagation.{least_false};
ghost use Rattle.theory.specs.Lawful.{IsLawful};
ghost use Rattle.theory.specs.Learning.{learn};
ghost use Rattle.theory.specs.Search.{values, refuted};
ghost use Rattle.cdcl.specs.Outcome.{outcome_of};

use crate::analysis::first_uip::{Learnt, analyze_in};
use crate::analysis::marks::AnalysisScratch;
use crate::api::outcome::Outcome;
use crate::search::line_log::LineLog;
use kernel::SearchKernel;
use std::alloc::{AllocError, Global};

/// The truth values on the trail.
pub(crate) fn values(alloc: Global, kernel: &SearchKernel) -> Result<Vec<bool>, AllocError>
    requires { IsLawful kernel.now.clauses kernel.now.trail }
    ensures { IfOk result (λ v. v.items ≡ values kernel.now.vars kernel.now.trail) }
{
    let vars = kernel.vars();
    let mut values = Vec::with_capacity(alloc, vars as usize)?;
    for index in 0..vars {
        values.push(kernel.value(index + 1).unwrap_or(false))?;
    }
    Ok(values)
}

/// A conflict at level 0 behind these lines: the cube is refuted, and its lines are handed out.
pub(crate) fn refute(
    kernel: &SearchKernel,
    scratch: &mut AnalysisScratch,
    learnt: &mut Learnt,
    lines: &mut LineLog,
    number: u64,
) -> Result<Outcome<LineLog>, AllocError>
    requires { least_false (literals kernel.now.trail) kernel.now.clauses ≡ Some number }
    ensures { IfOk result (λ o. outcome_of o
        ≡ refuted (lines.old ++ learn kernel.now.clauses kernel.now.trail number ∷ [])) }
{
    analyze_in(kernel, scratch, number, learnt)?;
    let none = Vec::new(lines.allocator());
    lines.push(&learnt.clause, &learnt.hints, &none)?;
    Ok(Outcome::Refuted(lines.hand_out()?))
}
