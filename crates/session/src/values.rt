//! What a trail says of literals and variables.
ghost use Rattle.std.specs.Prelude.{◌≡◌, ◌≤◌, IfOk};
ghost use Rattle.theory.specs.Literals.{has};
ghost use Rattle.theory.specs.Trails.{literals};
ghost use Rattle.theory.specs.Lawful.{IsLawful};
ghost use Rattle.theory.specs.Search.{values};

use cnf::Lit;
use kernel::SearchKernel;
use std::alloc::{AllocError, Global};

/// Whether a literal is true on the trail.
pub(crate) fn is_true(kernel: &SearchKernel, lit: Lit) -> bool
    ensures { result ≡ has (literals kernel.now.trail) lit }
{
    let _trail = kernel.trail(); // it ensures what the proof needs of the trail
    match kernel.value(lit.var()) {
        Some(positive) => positive == lit.positive(),
        None => false,
    }
}

/// The truth values of the variables 1 to `vars`, where a variable without one is false.
pub(crate) fn values(
    alloc: Global,
    kernel: &SearchKernel,
    vars: u32,
) -> Result<Vec<bool>, AllocError>
    requires { IsLawful kernel.now.clauses kernel.now.trail }
    ensures { IfOk result (λ v. v.items ≡ values vars kernel.now.trail) }
{
    let mut values = Vec::with_capacity(alloc, vars as usize)?;
    for index in 0..vars {
        values.push(kernel.value(index + 1).unwrap_or(false))?;
    }
    Ok(values)
}
