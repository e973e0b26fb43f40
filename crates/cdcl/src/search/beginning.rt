//! With which clauses a search begins beside the formula's.
ghost use Rattle.std.specs.Prelude.{◌≡◌, ◌++◌, IfOk};
ghost use Rattle.theory.specs.Literals.{IsCube};
ghost use Rattle.theory.specs.Truth.{IsOver};
ghost use Rattle.theory.specs.Pure.{unit_clauses};
ghost use Rattle.theory.specs.Beginnings.{begun};
ghost use Rattle.cdcl.specs.Plans.{beginning_of, first_units};

use crate::api::plan::Search;
use cnf::{Formula, Lit};
use std::alloc::{AllocError, Global};

impl Search {
    /// The literals whose unit clauses a search of the formula begins with too, by rising variable:
    /// the pure ones for the ordered search, and none for the focused one. An error comes only where
    /// memory was refused.
    pub fn units(self, alloc: Global, formula: &Formula) -> Result<Vec<Lit>, AllocError>
        ensures units { IfOk result (λ units. units.items ≡ first_units self formula.now) }
        ensures begun { IfOk result (λ units. begun formula.now (beginning_of self) ≡ record formula.now { clauses = formula.now.clauses ++ unit_clauses units.items }) }
        ensures cube { IfOk result (λ units. IsCube units.items × IsOver formula.now.vars units.items) }
    {
        match self {
            Search::Ordered => {
                let units = formula.pure(alloc)?;
                Ok(units)
            }
            Search::Focused => Ok(Vec::new(alloc)),
        }
    }
}
