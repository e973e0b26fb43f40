//! Which variables the clauses of a formula hold.
ghost use Rattle.std.specs.Prelude.{◌≡◌, ◌<◌, ◌≤◌, ◌+◌, ◌*◌, ◌^◌, ℕ, List, length, take, map, IfOk};
ghost use Rattle.theory.specs.Literals.{Literal, Clause};
ghost use Rattle.theory.specs.Trails.{variables};
ghost use Rattle.theory.specs.Held.{is_held};
ghost use Rattle.cnf.specs.Lits.{code};
ghost use Rattle.lookahead.specs.Tables.{at, AreOccurrences};

use crate::occurrences::occurrences;
use crate::ranking::is_held;
use kernel::SearchKernel;
use std::alloc::{AllocError, Global};

/// Whether clauses hold each variable, in the variables' own order.
fn all_held(alloc: Global, counts: &[u32], vars: u32) -> Result<Vec<bool>, AllocError>
    requires vars { vars < 2 ^ 31 }
    requires room { length counts.now ≡ 2 * vars + 2 }
    requires few { (l : Literal) → l.var ≤ vars → at counts.now (code l) < 2 ^ 31 }
    ensures { IfOk result (λ r. (K : List Clause) → AreOccurrences vars K counts.now → r.items ≡ map (is_held K) (variables vars)) }
{
    let mut held = Vec::new(alloc);
    for before in 0..vars {
        held.push(is_held(counts, before + 1))?;
    }
    Ok(held)
}

/// Whether the kernel's first clauses hold each variable, in the variables' own order; a clause with
/// both literals of a variable doesn't count. It takes time by their literals, and 16 bytes a
/// variable while it counts.
pub fn held(alloc: Global, kernel: &SearchKernel) -> Result<Vec<bool>, AllocError>
    requires { kernel.now.vars < 2 ^ 31 }
    ensures { IfOk result (λ r. r.items ≡ map (is_held (take kernel.now.first kernel.now.clauses)) (variables kernel.now.vars)) }
{
    let counts = occurrences(alloc, kernel)?;
    let held = all_held(alloc, &counts, kernel.vars())?;
    Ok(held)
}
