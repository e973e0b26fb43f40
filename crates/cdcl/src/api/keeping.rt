//! What keeps the lines of a refuted cube.
ghost use Rattle.std.specs.Prelude.{◌≡◌, IfOk, List};
ghost use Rattle.theory.specs.Learning as learning;
ghost use Rattle.cdcl.specs.Outcome.{outcome_of, outcome_by};

use crate::api::outcome::Outcome;
use crate::search::line_log::LineLog;
use lines::Row;
use std::alloc::{AllocError, Global};

/// What keeps the lines of a refuted cube.
pub trait KeepsLines: Drop {
    /// The lines.
    ghost lines: { Self → List learning.Line };

    /// Whether it does.
    fn keeps() -> bool;

    /// Takes over the lines that a search has learnt. It fails where a request for memory is refused,
    /// and where the search was to keep none that are kept here.
    fn keep(alloc: Global, log: LineLog) -> Result<Self, AllocError>
        ensures { IfOk result (λ kept. lines kept ≡ log) };
}

impl KeepsLines for Row {
    ghost lines = { λ row. row };

    fn keeps() -> bool {
        true
    }

    fn keep(_alloc: Global, log: LineLog) -> Result<Row, AllocError> {
        log.into_row()
    }
}

impl Outcome<LineLog> {
    /// The outcome, where a refuted cube's lines are kept in another way.
    pub fn kept<L: KeepsLines>(self, alloc: Global) -> Result<Outcome<L>, AllocError>
        ensures { IfOk result (λ o. outcome_by L.lines o ≡ outcome_of self) }
    {
        match self {
            Outcome::Model(values) => Ok(Outcome::Model(values)),
            Outcome::Refuted(log) => Ok(Outcome::Refuted(L::keep(alloc, log)?)),
            Outcome::Exhausted(var) => Ok(Outcome::Exhausted(var)),
        }
    }
}
