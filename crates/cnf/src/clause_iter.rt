//! The clauses of a formula, one after the other.
ghost use Rattle.std.specs.Prelude.{◌≡◌};
ghost use Rattle.std.specs.Iterator.{YieldsFirstRef, item_count};

use crate::formula::Formula;
use crate::lit::Lit;

/// The clauses of a formula in the order of the text, each as its literals. It takes no memory, and
/// a step takes the same time whatever the formula.
#[derive(Clone, Copy)]
pub struct ClauseIter<'a> {
    formula: &'a Formula,
    // of the next clause
    place: usize,
}

impl<'a> ClauseIter<'a> {
    ghost use Rattle.cnf.specs.ClausesLeft.{clauses_left};

    /// All clauses of a formula.
    pub(crate) fn of(formula: &'a Formula) -> ClauseIter<'a>
        ensures { clauses_left result ≡ formula.now.clauses }
    {
        ClauseIter { formula, place: 0 }
    }
}

impl<'a> Iterator for ClauseIter<'a> {
    ghost use Rattle.cnf.specs.ClausesLeft.{clauses_left};

    type Item = &'a [Lit];

    ghost next_gives = { YieldsFirstRef clauses_left };

    ghost remaining = { item_count clauses_left };

    fn next(&mut self) -> Option<&'a [Lit]> {
        if self.place >= self.formula.clause_count() {
            return None;
        }
        let clause = self.formula.clause(self.place);
        self.place += 1;
        Some(clause)
    }
}
