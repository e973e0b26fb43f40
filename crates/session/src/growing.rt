//! The formula that grows, by clauses and by variables.
ghost use Rattle.std.specs.Prelude.{◌≡◌, ◌≤◌, ◌<◌, ◌++◌, ◌∷◌, [], max, length, slice_get, Some, All, OnOk, OnErr};
ghost use Rattle.theory.specs.Truth.{IsOver};
ghost use Rattle.theory.specs.Reading.{large, max_vars};

use cnf::{Formula, Limits, Lit};
use std::alloc::{AllocError, Global};
use std::marker::Model;

/// The clauses that were added, over the variables 1 to `vars`.
pub(crate) struct GrowingFormula {
    // over all variables that a formula may have
    clauses: Formula,
    vars: u32,
}

// written out, so that proofs of its owners stay short (docs/PROVING.md)
impl Drop for GrowingFormula {
    fn drop(self) {
        let GrowingFormula {
            clauses: _,
            vars: _,
        } = self;
    }
}

impl Model for GrowingFormula {
    ghost use Rattle.std.specs.Prelude.{◌≡◌, ◌≤◌, All};
    ghost use Rattle.theory.specs.Truth as truth;
    ghost use Rattle.theory.specs.Truth.{IsOver};
    ghost use Rattle.theory.specs.Reading.{large, max_vars};

    ghost Value = { truth.Formula };

    ghost view = { λ a. record { vars = a.vars; clauses = a.clauses.clauses } };

    ghost invariant = { λ a. All (IsOver a.vars) a.clauses.clauses × (a.clauses.vars ≡ max_vars large) × (a.vars ≤ max_vars large) };
}

impl GrowingFormula {
    /// No clauses over no variables. It takes no memory.
    pub(crate) fn new(alloc: Global) -> GrowingFormula
        ensures { result ≡ record { vars = 0; clauses = [] } }
    {
        GrowingFormula {
            clauses: Formula::without_clauses(alloc, Limits::Large.vars()),
            vars: 0,
        }
    }

    /// The number of variables: they are 1 up to it.
    pub(crate) fn vars(&self) -> u32
        ensures vars { result ≡ self.now.vars }
        ensures few { result ≤ max_vars large }
        ensures over { All (IsOver self.now.vars) self.now.clauses }
    {
        self.vars
    }

    /// How many clauses there are.
    pub(crate) fn clause_count(&self) -> usize
        ensures { result ≡ length self.now.clauses }
    {
        self.clauses.clause_count()
    }

    /// How many literals all of them have.
    pub(crate) fn literal_count(&self) -> usize {
        self.clauses.literal_count()
    }

    /// The literals of the clause at a place, from 0 on.
    pub(crate) fn clause(&self, place: usize) -> &[Lit]
        requires { place < length self.now.clauses }
        ensures clause { slice_get self.now.clauses place ≡ Some result.now }
        ensures over { IsOver self.now.vars result.now }
    {
        self.clauses.clause(place)
    }

    /// Takes the variables up to one in, if there are fewer.
    pub(crate) fn widen(&mut self, vars: u32)
        requires { vars ≤ max_vars large }
        ensures { self.new ≡ record self.old { vars = max self.old.vars vars } }
    {
        self.vars = self.vars.max(vars);
    }

    /// Puts a clause behind the others, whose variables were taken in. It fails where a request for
    /// memory is refused, or there are as many clauses as a formula may have; nothing has changed
    /// then.
    pub(crate) fn push(&mut self, clause: &[Lit]) -> Result<(), AllocError>
        requires { IsOver self.old.vars clause.now }
        ensures pushed { OnOk result (self.new ≡ record self.old { clauses = self.old.clauses ++ clause.now ∷ [] }) }
        ensures refused { OnErr result (self.new ≡ self.old) }
    {
        self.clauses.push(clause)?;
        Ok(())
    }
}
