//! Cubes of numbers, short enough for a pool.
ghost use Rattle.std.specs.Prelude.{IfOk};
ghost use Rattle.theory.specs.Ledger.{IsFit};

use cnf::Lit;
use kernel::Cube;
use std::alloc::{AllocError, Global};
use test_samples::has_var;

/// The cube of these numbers, without those that aren't of a new variable of 1 to `vars`, and of 32
/// at most.
pub fn cube_of(alloc: Global, vars: u32, numbers: &[i32]) -> Result<Cube, AllocError>
    ensures { IfOk result (λ q. IsFit vars q) }
{
    let mut cube = Cube::root(alloc);
    for number in numbers {
        if let Some(lit) = Lit::new(*number) {
            let is_new = lit.var() <= vars && !has_var(cube.lits(), lit.var());
            if is_new && cube.lits().len() < 32 {
                cube.push(lit)?;
            }
        }
    }
    Ok(cube)
}

pub fn is_cube(cube: &Cube, numbers: &[i32]) -> bool {
    let lits = cube.lits();
    lits.len() == numbers.len()
        && lits
            .iter()
            .zip(numbers)
            .all(|(lit, number)| lit.number() == *number)
}
