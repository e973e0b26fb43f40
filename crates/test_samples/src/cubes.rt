//! Cubes of numbers, and comparisons of literals with numbers.
ghost use Rattle.std.specs.Prelude.{◌≡◌, IfOk};
ghost use Rattle.theory.specs.Literals.{has_var};
ghost use Rattle.theory.specs.Truth.{IsOver};

use cnf::Lit;
use kernel::Cube;
use std::alloc::{AllocError, Global};

/// Whether one of these literals is of the variable.
pub fn has_var(lits: &[Lit], var: u32) -> bool
    ensures { result ≡ has_var lits.now var }
{
    for lit in lits {
        if var == lit.var() {
            return true;
        }
    }
    false
}

/// The cube of these numbers, without those that aren't of a new variable of 1 to `vars`.
pub fn cube_of(alloc: Global, vars: u32, numbers: &[i32]) -> Result<Cube, AllocError>
    ensures { IfOk result (λ q. IsOver vars q) }
{
    let mut cube = Cube::root(alloc);
    for number in numbers {
        if let Some(lit) = Lit::new(*number) {
            if lit.var() <= vars && !has_var(cube.lits(), lit.var()) {
                cube.push(lit)?;
            }
        }
    }
    Ok(cube)
}

/// Whether a clause or a cube has the literals of these numbers, in their order.
pub fn reads(lits: &[Lit], wanted: &[i32]) -> bool {
    if lits.len() != wanted.len() {
        return false;
    }
    for (lit, number) in lits.iter().zip(wanted) {
        if lit.number() != *number {
            return false;
        }
    }
    true
}
