//! A clause that only contracts read.
ghost use Rattle.std.specs.Prelude.{◌≡◌, [], ◌∷◌, ◌++◌};

use cnf::Lit;
use std::marker::Model;
use std::snapshot::Snapshot;

/// A clause, spelled literal by literal: it takes no memory, and no time once it is compiled.
#[derive(Drop)]
pub struct Spelled {
    // what was spelled before the last literal; none where nothing was spelled
    before: Option<Snapshot<Spelled>>,
    last: Lit,
}

impl Model for Spelled {
    ghost use Rattle.std.specs.Prelude.{length};
    ghost use Rattle.theory.specs.Literals.{Clause};
    ghost use Rattle.kernel.specs.Spelled.{spelled};

    ghost Value = { Clause };

    ghost view = { λ s. spelled s.before s.last };

    ghost size = { λ c. length c };
}

impl Spelled {
    /// The empty clause.
    fn none() -> Spelled
        ensures { result ≡ [] }
    {
        Spelled {
            before: None,
            last: Lit::of(1, true),
        }
    }

    /// The clause with a literal at its end.
    fn with(&self, lit: Lit) -> Spelled
        ensures { result ≡ self.now ++ lit ∷ [] }
    {
        Spelled {
            before: Some(Snapshot::of(self)),
            last: lit,
        }
    }

    /// The clause of these literals.
    pub fn of(lits: &[Lit]) -> Spelled
        ensures { result ≡ lits.now }
    {
        let mut spelled = Spelled::none();
        for lit in lits {
            spelled = spelled.with(*lit);
        }
        spelled
    }
}
