//! The kernel that a search of a formula begins with.
ghost use Rattle.std.specs.Prelude.{◌≡◌, ◌++◌, [], IfOk};
ghost use Rattle.theory.specs.Literals.{IsCube};
ghost use Rattle.theory.specs.Truth.{IsOver};
ghost use Rattle.theory.specs.Pure.{unit_clauses};
ghost use Rattle.cdcl.specs.Searching.{IsReady};

use cnf::{Formula, Lit};
use kernel::{Cube, Order, SearchKernel};
use std::alloc::{AllocError, Global};

/// A kernel over the formula's clauses, and behind them a unit clause for each of these literals of
/// distinct variables, before the first cube.
pub(crate) fn open_kernel(
    alloc: Global,
    formula: &Formula,
    units: &[Lit],
    order: Order,
) -> Result<SearchKernel, AllocError>
    requires { IsCube units.now × IsOver formula.now.vars units.now }
    ensures ready { IfOk result (IsReady order (record formula.now { clauses = formula.now.clauses ++ unit_clauses units.now })) }
    ensures trail { IfOk result (λ k. k.trail ≡ []) }
{
    let root = Cube::root(alloc);
    let kernel = SearchKernel::open(alloc, formula, units, &root, order)?;
    Ok(kernel)
}
