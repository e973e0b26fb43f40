//! Kernels, the conflicts that they come to, and what these teach.
ghost use Rattle.std.specs.Prelude.{◌≡◌, false, IfSome};
ghost use Rattle.theory.specs.Literals.{IsVariable, has_var};
ghost use Rattle.theory.specs.Trails.{literals};

use cdcl::{Learnt, analyze};
use cnf::{Lit, read_formula};
use kernel::{Closed, Kernel};
use std::alloc::{AllocError, Global};
use std::test::Fail;
use test_samples::{cube_of, reads};

/// The literal that makes the least free variable false.
fn next_literal(kernel: &Kernel) -> Option<Lit>
    ensures { IfSome result (λ l. IsVariable kernel.now.vars l.var × (has_var (literals kernel.now.trail) l.var ≡ false)) }
{
    match kernel.least_free() {
        Some(var) if var < 65536 => Some(Lit::of(var, false)),
        _ => None,
    }
}

/// Decides the least free variable, false, after propagation. Whether that could be done.
fn decide(kernel: &mut Kernel) -> Result<bool, AllocError> {
    match kernel.close()? {
        Closed::Conflict(_) => Ok(false),
        Closed::Quiet => {
            let Some(lit) = next_literal(kernel) else {
                return Ok(false);
            };
            kernel.decide(lit);
            Ok(true)
        }
    }
}

/// What the conflict of this number teaches, if propagation ends in it.
fn learnt(alloc: Global, kernel: &mut Kernel, conflict: u64) -> Result<Option<Learnt>, AllocError> {
    match kernel.close()? {
        Closed::Conflict(number) if number == conflict => Ok(Some(analyze(alloc, kernel, number)?)),
        _ => Ok(None),
    }
}

/// What the conflict of this number teaches, if it follows this number of decisions.
fn learnt_after(
    alloc: Global,
    kernel: &mut Kernel,
    decisions: u32,
    conflict: u64,
) -> Result<Option<Learnt>, AllocError> {
    for _ in 0..decisions {
        if !decide(kernel)? {
            return Ok(None);
        }
    }
    learnt(alloc, kernel, conflict)
}

/// What the conflict teaches that follows the decisions of this number of variables in a cube.
pub fn taught(
    alloc: Global,
    text: &str,
    cube: &[i32],
    decisions: u32,
    conflict: u64,
) -> Result<Option<Learnt>, Fail> {
    let formula = read_formula(alloc, text.as_bytes())?;
    let cube = cube_of(alloc, formula.vars(), cube)?;
    let mut kernel = Kernel::open(alloc, &formula, &cube)?;
    Ok(learnt_after(alloc, &mut kernel, decisions, conflict)?)
}

/// Whether the conflict taught this clause, from these hints, and leads back to this level.
pub fn says(learnt: Option<Learnt>, clause: &[i32], hints: &[u64], level: u32) -> bool {
    match learnt {
        Some(learnt) => reads(&learnt.clause, clause)
            && &learnt.hints[..] == hints
            && learnt.level == level,
        None => false,
    }
}
