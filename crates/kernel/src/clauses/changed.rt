//! How the clauses of a kernel changed, for contracts alone.
ghost use Rattle.std.specs.Prelude.{◌≡◌, []};
ghost use Rattle.kernel.specs.Given.{after};

use crate::clauses::named::Named;
use crate::clauses::spelled::Spelled;
use std::marker::Model;
use std::snapshot::Snapshot;

/// One change of a list of clauses.
#[derive(Drop)]
pub enum Change {
    /// A clause was put at the end.
    Pushed(Snapshot<Spelled>),
    /// The clauses from a place on were cut off.
    Cut(usize),
    /// `1 -1` was put in place of those that are named.
    Forgotten(Snapshot<Named>),
}

/// Clauses, by their changes one after the other.
#[derive(Drop)]
pub struct Changed {
    // the clauses before the last change; none at the beginning, when there are no clauses
    before: Option<Snapshot<Changed>>,
    change: Change,
}

impl Model for Changed {
    ghost use Rattle.kernel.specs.Given.{Told, told};

    ghost Value = { Told };

    ghost view = { λ c. told c.before c.change };

    ghost size = { λ t. t.changes };
}

impl Changed {
    /// No clauses.
    pub fn none() -> Changed
        ensures { result.clauses ≡ [] }
    {
        Changed {
            before: None,
            change: Change::Cut(0),
        }
    }

    /// The clauses after a change.
    pub fn by(&self, change: Change) -> Changed
        ensures { result.clauses ≡ after change self.now.clauses }
    {
        Changed {
            before: Some(Snapshot::of(self)),
            change,
        }
    }
}
