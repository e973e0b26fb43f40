//! The clauses of a kernel as they were given, for contracts alone: propagation has each clause's
//! literals in an order of its own, and no copy of a clause is kept beside.
ghost use Rattle.std.specs.Prelude.{◌≡◌, [], ◌∷◌, ◌++◌, take, ℕ, List};
ghost use Rattle.theory.specs.Forgetting.{forget};
ghost use Rattle.kernel.specs.Forgetting.{Tells, names};

use crate::clauses::changed::{Change, Changed};
use crate::clauses::named::Named;
use crate::clauses::spelled::Spelled;
use cnf::Lit;
use std::marker::Model;
use std::snapshot::Snapshot;

/// Clauses that only contracts read. They take a few bytes, and each call but `push` takes one step.
#[derive(Drop)]
pub struct Given {
    last: Changed,
}

impl Model for Given {
    ghost use Rattle.std.specs.Prelude.{List};
    ghost use Rattle.theory.specs.Literals.{Clause};

    ghost Value = { List Clause };

    ghost view = { λ g. g.last.clauses };
}

impl Given {
    /// No clauses.
    pub fn none() -> Given
        ensures { result ≡ [] }
    {
        Given {
            last: Changed::none(),
        }
    }

    /// Puts a clause at the end.
    pub fn push(&mut self, clause: &[Lit])
        ensures { self.new ≡ self.old ++ clause.now ∷ [] }
    {
        let spelled = Spelled::of(clause);
        self.last = self.last.by(Change::Pushed(Snapshot::of(&spelled)));
    }

    /// Cuts off the clauses from a place on.
    pub fn truncate(&mut self, count: usize)
        ensures { self.new ≡ take count self.old }
    {
        self.last = self.last.by(Change::Cut(count));
    }

    /// Puts `1 -1` in place of the clauses that are named.
    pub fn forget(&mut self, named: &Named)
        ensures { (numbers : List ℕ) → Tells (names named.now) numbers → self.new ≡ forget numbers 1 self.old }
    {
        self.last = self.last.by(Change::Forgotten(Snapshot::of(named)));
    }
}
