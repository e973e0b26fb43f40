//! A unit clause that waits where clauses go by number alone.
ghost use Rattle.std.specs.Prelude.{◌≡◌, nat_eq};
ghost use Rattle.std.proofs.Common.{rules};
ghost use Rattle.std.specs.Cmp.{partial_order_from_own_ties};
ghost use Rattle.std.specs.Cmp.Rules.{comparing};
ghost use Rattle.std.specs.Ordering.{nat_cmp, on, as_partial_cmp};
ghost use Rattle.kernel.specs.Placing.{at_start};

use crate::units::unit_queue::Waiting;
use cnf::Lit;
use std::cmp::Ordering;

/// A clause that waits at place 0, with the literal that it was unit in. Its number alone says
/// which one goes first.
#[derive(Clone, Copy)]
pub struct Numbered {
    /// The place of the clause.
    pub clause: u32,
    /// The literal that it was unit in.
    pub lit: Lit,
}

impl PartialEq for Numbered {
    ghost eq = { on (λ u. u.clause) nat_eq };

    ghost laws = { Prim.search (comparing, rules) };

    fn eq(&self, other: &Numbered) -> bool {
        self.clause == other.clause
    }
}

impl Eq for Numbered {
    ghost laws = { Prim.search (comparing, rules) };
}

impl PartialOrd for Numbered {
    ghost partial_cmp = { as_partial_cmp (on (λ u. u.clause) nat_cmp) };

    ghost laws = { partial_order_from_own_ties (Prim.search (comparing, rules)) (Prim.search (comparing, rules)) };

    fn partial_cmp(&self, other: &Numbered) -> Option<Ordering> {
        Some(self.cmp(other))
    }
}

impl Ord for Numbered {
    ghost cmp = { on (λ u. u.clause) nat_cmp };

    ghost total = { Prim.search (comparing, rules) };

    ghost matches_partial_cmp = { Prim.search (comparing, rules) };

    ghost matches_eq = { Prim.search (comparing, rules) };

    fn cmp(&self, other: &Numbered) -> Ordering {
        self.clause.cmp(&other.clause)
    }
}

impl Numbered {
    /// The clause as it waits.
    pub fn waiting(&self) -> Waiting
        ensures { result ≡ at_start self.now }
    {
        Waiting {
            place: 0,
            clause: self.clause,
            lit: self.lit,
        }
    }
}
