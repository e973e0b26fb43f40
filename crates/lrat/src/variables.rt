//! Which variables the clauses of a proof may have.
ghost use Rattle.std.specs.Prelude.{◌≡◌};
ghost use Rattle.cnf.specs.Limits.{limits_of};
ghost use Rattle.lrat.specs.Extended.{variables_allowed};

use cnf::{Formula, Limits};

/// Which variables the clauses of a proof may have.
#[derive(Clone, Copy, Debug, PartialEq, Eq)]
pub enum Variables {
    /// Those of the formula.
    OfFormula,
    /// Greater ones too, as many as a formula may have: extended resolution defines them.
    Extended,
}

impl Variables {
    /// How many variables the clauses of a formula's proof may have within these limits.
    pub fn allowed(self, formula: &Formula, limits: Limits) -> u32
        ensures { result ≡ variables_allowed (limits_of limits) self formula.now }
    {
        match self {
            Variables::OfFormula => formula.vars(),
            Variables::Extended => formula.vars().max(limits.vars()),
        }
    }
}
