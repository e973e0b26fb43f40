//! What is kept of a refuted cube's lines where nobody asks for a proof: nothing.

ghost use Rattle.std.specs.Prelude.{◌≡◌};

use crate::api::keeping::KeepsLines;
use crate::search::line_log::LineLog;
use lines::Row;
use std::alloc::{AllocError, Global};
use std::marker::Model;
use std::snapshot::Snapshot;

/// Which lines a cube had; it is no data.
#[derive(Drop)]
pub enum Had {
    InRow(Snapshot<Row>),
    InLog(Snapshot<LineLog>),
}

/// Stands for the lines of a refuted cube, and keeps none of them.
#[derive(Drop)]
pub struct Unkept {
    had: Had,
}

impl Model for Unkept {
    ghost use Rattle.std.specs.Prelude.{List};
    ghost use Rattle.theory.specs.Learning as learning;
    ghost use Rattle.cdcl.specs.Unkept.{had_lines};

    ghost Value = { List learning.Line };

    ghost view = { λ u. had_lines u.had };
}

impl Unkept {
    /// Stands for the lines of this row, which somebody else keeps or hands on.
    pub fn of(row: &Row) -> Unkept
        ensures { result ≡ row.now }
    {
        Unkept {
            had: Had::InRow(Snapshot::of(row)),
        }
    }
}

impl KeepsLines for Unkept {
    ghost lines = { λ unkept. unkept };

    fn keeps() -> bool {
        false
    }

    fn keep(_alloc: Global, log: LineLog) -> Result<Unkept, AllocError> {
        Ok(Unkept {
            had: Had::InLog(Snapshot::of(&log)),
        })
    }
}
