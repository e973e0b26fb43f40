//! What a simplification leaves.
ghost use Rattle.std.specs.Prelude.{◌≡◌, [], length};
ghost use Rattle.theory.specs.Simplifying.{extended_model};

use crate::eliminated::EliminatedVars;
use cnf::Formula;
use lines::Row;
use std::marker::Model;
use std::mem;

/// A simplified formula, the lines of a proof that lead to it, and what makes a model of it one of
/// the formula that was simplified.
#[derive(Drop)]
pub struct Simplification {
    pub(crate) formula: Formula,
    pub(crate) lines: Row,
    pub(crate) eliminated: EliminatedVars,
    pub(crate) clauses: u32,
    pub(crate) work: u64,
}

impl Model for Simplification {
    ghost use Rattle.simplify.specs.Made.{Made};
    ghost use Rattle.simplify.specs.Extending.{AreOver};

    ghost Value = { Made };

    ghost view = { λ a. record { formula = a.formula; lines = a.lines; eliminated = a.eliminated } };

    ghost invariant = { λ a. AreOver a.formula.vars a.eliminated };
}

impl Simplification {
    /// The formula that is left. Each clause has its number, as the lines name it; a number that no
    /// clause has any more has one with both signs of a variable.
    pub fn formula(&self) -> &Formula
        ensures { result.now ≡ self.now.formula }
    {
        &self.formula
    }

    /// Makes a model of the formula that is left one of the formula that was simplified: `values`
    /// has the truth values of the variables 1, 2 and so on. It takes no memory, and time by the
    /// clauses that the eliminated variables had.
    pub fn extend(&self, values: &mut [bool])
        requires { length values.old ≡ self.now.formula.vars }
        ensures { values.new ≡ extended_model (length values.old) self.now.eliminated values.old }
    {
        self.eliminated.extend(values);
    }

    /// Takes out the lines that stand before those of a search. Where one has no hints, it says what
    /// is deleted.
    pub fn take_lines(&mut self) -> Row
        ensures lines { result ≡ self.old.lines }
        ensures rest { self.new ≡ record self.old { lines = [] } }
    {
        let alloc = self.lines.allocator();
        mem::replace(&mut self.lines, Row::new(alloc))
    }

    /// How many variables were eliminated.
    pub fn eliminated_count(&self) -> u32 {
        u32::try_from(self.eliminated.len()).unwrap_or(u32::MAX)
    }

    /// How many clauses are left.
    pub fn clause_count(&self) -> u32 {
        self.clauses
    }

    /// How many literals were looked at.
    pub fn looked_at(&self) -> u64 {
        self.work
    }
}
