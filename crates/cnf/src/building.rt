//! Formulas that a program makes.
ghost use Rattle.std.specs.Prelude.{◌≡◌, ◌≤◌, [], ◌∷◌, ◌++◌, OnOk, OnErr};
ghost use Rattle.theory.specs.Truth.{IsOver};
ghost use Rattle.theory.specs.Reading.{large, max_vars};

use crate::flat::FlatClauses;
use crate::formula::Formula;
use crate::lit::Lit;
use std::alloc::{AllocError, Global};

/// A formula has at most so many clauses,
const MOST_CLAUSES: usize = 1_000_000_000;

/// and at most so many literals.
const MOST_LITERALS: usize = 8_000_000_000;

impl Formula {
    /// The formula of so many variables that has no clauses. It takes no memory.
    pub fn without_clauses(alloc: Global, vars: u32) -> Formula
        requires { vars ≤ max_vars large }
        ensures { result ≡ record { vars = vars; clauses = [] } }
    {
        Formula::new(vars, FlatClauses::new(alloc))
    }

    /// Puts a clause behind the others. It fails where a request for memory is refused, or the
    /// formula has as many clauses or literals as one may have; the formula is then as it was.
    pub fn push(&mut self, clause: &[Lit]) -> Result<(), AllocError>
        requires { IsOver self.old.vars clause.now }
        ensures pushed { OnOk result (self.new ≡ record self.old { clauses = self.old.clauses ++ clause.now ∷ [] }) }
        ensures refused { OnErr result (self.new ≡ self.old) }
    {
        if self.clauses.len() >= MOST_CLAUSES {
            return Err(AllocError);
        }
        if clause.len() > MOST_LITERALS - self.clauses.literal_count() {
            return Err(AllocError);
        }
        self.clauses.push(clause)?;
        Ok(())
    }
}
