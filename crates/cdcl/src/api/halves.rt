//! The two halves of a cube.
ghost use Rattle.std.specs.Prelude.{◌≡◌, ◌≤◌, ◌<◌, ◌^◌, IfOk, false};
ghost use Rattle.theory.specs.Literals.{has_var};
ghost use Rattle.theory.specs.Trees.{false_half, true_half};

use cnf::Lit;
use kernel::Cube;
use std::alloc::AllocError;

/// The cube with the variable false, and the cube with it true. The variable is from 1 to
/// 2,147,483,647, and not in the cube. An error comes only where memory was refused.
pub fn split(cube: &Cube, var: u32) -> Result<(Cube, Cube), AllocError>
    requires var { (1 ≤ var) × (var < 2 ^ 31) }
    requires free { has_var cube.now var ≡ false }
    ensures left { IfOk result (λ halves. halves.0 ≡ false_half cube.now var) }
    ensures right { IfOk result (λ halves. halves.1 ≡ true_half cube.now var) }
{
    let left = cube.with(Lit::of(var, false))?;
    let right = cube.with(Lit::of(var, true))?;
    Ok((left, right))
}
