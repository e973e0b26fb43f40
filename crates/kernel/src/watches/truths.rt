//! What is said of a trail's literals, for visits of clauses.
ghost use Rattle.std.specs.Prelude.{◌≤◌};
ghost use Rattle.theory.specs.Trails.{literals};
ghost use Rattle.trail.specs.Tables.{IsTruth, value_of};
ghost use Rattle.kernel.specs.TruthTables.{AreTruths};

use cnf::Lit;
use trail::{Trail, Truth, status_in};

/// A trail that stays, and its table of truths. Visits of clauses have the table at hand: to ask the
/// trail where it lies, at each literal, took a tenth of propagation on parity chains, and a
/// twentieth on pigeonholes.
#[derive(Clone, Copy)]
pub struct Truths<'t> {
    pub trail: &'t Trail,
    pub table: &'t [Truth],
}

impl<'t> Truths<'t> {
    /// What is said of a literal.
    pub fn status(self, lit: Lit) -> Truth
        requires table { AreTruths self.trail.now self.table.now }
        requires over { lit.var ≤ self.trail.now.vars }
        ensures { IsTruth (literals self.entry.trail.now.entries) lit (value_of result) }
    {
        status_in(self.table, lit)
    }
}
