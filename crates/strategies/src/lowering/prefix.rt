//! The cube of the literals that are settled, with all that follows from it by propagation.
ghost use Rattle.std.specs.Prelude.{◌≡◌, ◌+◌, ◌++◌, ◌∷◌, [], true, false, IfOk, OnOk};
ghost use Rattle.theory.specs.Literals.{IsVariable, has_var};
ghost use Rattle.theory.specs.Truth.{Satisfies, is_true, value};
ghost use Rattle.theory.specs.Trails.{literals};
ghost use Rattle.theory.specs.Pure.{pure_literals, searched};
ghost use Rattle.strategies.specs.Lowering.{IsPrefix};

use cnf::{Formula, Lit};
use kernel::{Closed, Cube, Order, SearchKernel};
use std::alloc::{AllocError, Global};

/// The literals that were settled, least variable first, but for those that follow from the ones
/// before them; and the trail, on which each of them is a decision. So propagation goes on with each
/// literal, and is never begun anew.
pub(crate) struct Prefix {
    pub(crate) cube: Cube,
    pub(crate) kernel: SearchKernel,
}

// written out, so that proofs of its owners stay short (docs/PROVING.md)
impl Drop for Prefix {
    fn drop(self) {
        let Prefix { cube: _, kernel: _ } = self;
    }
}

impl Prefix {
    /// No literals, of a formula that has this model, in which its pure variables are false. It
    /// takes time and memory by the formula's literals and variables.
    pub(crate) fn open(
        alloc: Global,
        formula: &Formula,
        units: &[Lit],
        model: &[bool],
    ) -> Result<Prefix, AllocError>
        requires units { units.now ≡ pure_literals formula.now }
        requires model { Satisfies (searched formula.now) model.now }
        ensures { IfOk result (IsPrefix formula.now 1 model.now) }
    {
        let _model = model; // it is there for the contract alone
        let _vars = formula.vars(); // it ensures what the proof needs of the formula
        let cube = Cube::root(alloc);
        let mut kernel = SearchKernel::open(alloc, formula, units, &cube, Order::ByPlace)?;
        match kernel.close()? {
            Closed::Quiet => Ok(Prefix { cube, kernel }),
            Closed::Conflict(_) => unreachable!(),
        }
    }

    /// Whether the variable's value follows from the literals.
    pub(crate) fn settles(&self, var: u32) -> bool
        ensures { result ≡ has_var (literals self.now.kernel.trail) var }
    {
        self.kernel.value(var).is_some()
    }

    /// Takes one literal more, which the model makes true, and all that follows. All variables below
    /// its own are settled. It fails where a request for memory is refused.
    pub(crate) fn join(
        &mut self,
        formula: &Formula,
        model: &[bool],
        lit: Lit,
    ) -> Result<(), AllocError>
        requires model { Satisfies (searched formula.now) model.now }
        requires prefix { IsPrefix formula.now lit.var model.now self.old }
        requires variable { IsVariable formula.now.vars lit.var }
        requires free { has_var (literals self.old.kernel.trail) lit.var ≡ false }
        requires is_true { is_true (value model.now) lit ≡ true }
        ensures prefix { OnOk result (IsPrefix formula.now (lit.var + 1) model.now self.new) }
        ensures cube { OnOk result (self.new.cube ≡ self.old.cube ++ lit ∷ []) }
    {
        let (_formula, _model) = (formula, model); // they are there for the contract alone
        self.cube.push(lit)?;
        self.kernel.decide(lit);
        match self.kernel.close()? {
            Closed::Quiet => Ok(()),
            Closed::Conflict(_) => unreachable!(),
        }
    }
}
