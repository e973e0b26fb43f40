//! Whether a cube is split on a variable that its search, or another one, may split it on.
ghost use Rattle.std.specs.Prelude.{◌≡◌, ◌↔◌, IsTrue, IfOk, false};
ghost use Rattle.theory.specs.Literals.{has_var};
ghost use Rattle.theory.specs.Truth.{IsOver};
ghost use Rattle.theory.specs.Pure.{searched};
ghost use Rattle.theory.specs.Checked.{IsFitSplit, IsLeastSplit};
ghost use Rattle.packs.specs.Splits.{IsReady};

use cnf::{Formula, Lit};
use kernel::{Closed, Cube, Order, SearchKernel};
use std::alloc::{AllocError, Global};

/// Whether one of these literals is of a variable.
fn has_var(literals: &[Lit], var: u32) -> bool
    ensures { result ≡ has_var literals.now var }
{
    for lit in literals {
        if var == lit.var() {
            return true;
        }
    }
    false
}

/// Whether a variable is one of the formula that isn't in the cube. It takes time by the cube's
/// literals, and no memory.
pub fn is_fit_split(formula: &Formula, cube: &Cube, var: u32) -> bool
    ensures { IsTrue result ↔ IsFitSplit formula.now cube.now var }
{
    1 <= var && var <= formula.vars() && !has_var(cube.lits(), var)
}

/// Finds the least variable that propagation from a cube leaves free, for one cube of a formula
/// after the other.
#[derive(Drop)]
pub struct LeastSplits {
    kernel: SearchKernel,
}

impl LeastSplits {
    /// Opened for a formula. It takes time and memory by the formula's literals, and fails where a
    /// request for memory is refused.
    pub fn open(alloc: Global, formula: &Formula) -> Result<LeastSplits, AllocError>
        ensures { IfOk result (IsReady formula.now) }
    {
        let units = formula.pure(alloc)?;
        let root = Cube::root(alloc);
        let kernel = SearchKernel::open(alloc, formula, &units, &root, Order::ByNumber)?;
        Ok(LeastSplits { kernel })
    }

    /// Whether the ordered search splits a cube on a variable, if it splits it: it is the least one
    /// that is free where propagation from the cube, over the clauses that a search begins with,
    /// comes to rest. The cube may be any. It takes time by the clauses that propagation visits,
    /// and none by the formula. It fails where a request for memory is refused, and from then on.
    pub fn is_least(&mut self, formula: &Formula, cube: &Cube, var: u32) -> Result<bool, AllocError>
        requires over { IsOver formula.now.vars cube.now }
        requires ready { IsReady formula.now self.old }
        ensures least { IfOk result (λ b. IsTrue b ↔ IsLeastSplit (searched formula.now) cube.now var) }
        ensures ready { IsReady formula.now self.new }
    {
        self.kernel.restart(cube)?;
        match self.kernel.close()? {
            Closed::Quiet => Ok(match self.kernel.least_free() {
                Some(least) => least == var,
                None => false,
            }),
            Closed::Conflict(_) => Ok(false),
        }
    }
}
