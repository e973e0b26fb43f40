//! Lines that only contracts read. Where nobody asks for a proof a search keeps no line, and its
//! contract still says which lines it has learnt.
ghost use Rattle.std.specs.Prelude.{◌≡◌, [], ◌∷◌, ◌++◌};

use cnf::Lit;
use std::marker::Model;
use std::snapshot::Snapshot;

/// One line.
#[derive(Drop)]
pub enum PastLine {
    /// Nothing, as where there is no line yet.
    Empty,
    /// The clause, the hints, and the numbers of the clauses that are forgotten after it.
    Learnt(Snapshot<Vec<Lit>>, Snapshot<Vec<u64>>, Snapshot<Vec<u64>>),
    /// The literal of a unit, and the hints.
    Unit(Lit, Snapshot<Vec<u64>>),
}

/// Lines, one after the other. They take a few bytes, and each call takes one step.
#[derive(Drop)]
pub struct PastLines {
    // the lines before the last one; none at the beginning, when there is no line
    before: Option<Snapshot<PastLines>>,
    last: PastLine,
}

impl Model for PastLines {
    ghost use Rattle.std.specs.Prelude.{List, length};
    ghost use Rattle.theory.specs.Learning.{Line};
    ghost use Rattle.cdcl.specs.PastLines.{past};

    ghost Value = { List Line };

    ghost view = { λ p. past p.before p.last };

    ghost size = { λ ls. length ls };
}

impl PastLines {
    /// No lines.
    pub(crate) fn none() -> PastLines
        ensures { result ≡ [] }
    {
        PastLines {
            before: None,
            last: PastLine::Empty,
        }
    }

    /// These, and the line of a conflict.
    // Lists, since a snapshot is of a type that has a size.
    pub(crate) fn with(&self, clause: &Vec<Lit>, hints: &Vec<u64>, forgets: &Vec<u64>) -> PastLines
        ensures { result ≡ self.now ++ record { clause = clause.now.items; hints = hints.now.items; forgets = forgets.now.items } ∷ [] }
    {
        PastLines {
            before: Some(Snapshot::of(self)),
            last: PastLine::Learnt(
                Snapshot::of(clause),
                Snapshot::of(hints),
                Snapshot::of(forgets),
            ),
        }
    }

    /// These, and the line of a unit.
    pub(crate) fn with_unit(&self, lit: Lit, hints: &Vec<u64>) -> PastLines
        ensures { result ≡ self.now ++ record { clause = lit ∷ []; hints = hints.now.items; forgets = [] } ∷ [] }
    {
        PastLines {
            before: Some(Snapshot::of(self)),
            last: PastLine::Unit(lit, Snapshot::of(hints)),
        }
    }
}
