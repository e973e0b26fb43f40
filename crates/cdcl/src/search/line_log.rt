//! The lines that a search learns: as bytes where a proof is asked for, and else not at all, so that
//! its memory doesn't grow by them.
ghost use Rattle.std.specs.Prelude.{◌≡◌, [], ◌∷◌, ◌++◌, IfOk, OnOk, OnErr};

use crate::search::past_lines::PastLines;
use cnf::Lit;
use lines::Row;
use std::alloc::{AllocError, Global};
use std::marker::Model;
use std::mem;

/// The lines of a cube's search, one after the other.
#[derive(Drop)]
pub struct LineLog {
    // the lines where they are kept, and else none
    row: Row,
    keeps: bool,
    // which lines they are; it is no data
    past: PastLines,
}

impl Model for LineLog {
    ghost use Rattle.std.specs.Prelude.{◌≡◌, true, List};
    ghost use Rattle.theory.specs.Learning.{Line};

    ghost Value = { List Line };

    ghost view = { λ l. l.past };

    ghost invariant = { λ l. l.keeps ≡ true → l.row ≡ l.past };
}

impl LineLog {
    /// No lines. It takes no memory.
    pub fn new(alloc: Global, keeps: bool) -> LineLog
        ensures { result ≡ [] }
    {
        LineLog {
            row: Row::new(alloc),
            keeps,
            past: PastLines::none(),
        }
    }

    /// Puts the line of a conflict at the end, with the numbers of the clauses that are forgotten
    /// after it. It fails as `Row::push` does.
    pub(crate) fn push(
        &mut self,
        clause: &Vec<Lit>,
        hints: &Vec<u64>,
        forgets: &Vec<u64>,
    ) -> Result<(), AllocError>
        ensures ok { OnOk result (self.new ≡ self.old ++ record { clause = clause.now.items; hints = hints.now.items; forgets = forgets.now.items } ∷ []) }
        ensures err { OnErr result (self.new ≡ self.old) }
    {
        if self.keeps {
            self.row.push(clause, hints, forgets)?;
        }
        self.past = self.past.with(clause, hints, forgets);
        Ok(())
    }

    /// Puts the line of a unit at the end. It fails as `Row::push` does.
    pub(crate) fn push_unit(&mut self, lit: Lit, hints: &Vec<u64>) -> Result<(), AllocError>
        ensures ok { OnOk result (self.new ≡ self.old ++ record { clause = lit ∷ []; hints = hints.now.items; forgets = [] } ∷ []) }
        ensures err { OnErr result (self.new ≡ self.old) }
    {
        if self.keeps {
            self.row.push(&[lit], hints, &[])?;
        }
        self.past = self.past.with_unit(lit, hints);
        Ok(())
    }

    /// Takes all lines out, and keeps the memory for others.
    pub(crate) fn clear(&mut self)
        ensures { self.new ≡ [] }
    {
        self.row.clear();
        self.past = PastLines::none();
    }

    /// Hands all lines out, as `Row::hand_out` does; none is left. It fails only where a request for
    /// memory is refused.
    pub(crate) fn hand_out(&mut self) -> Result<LineLog, AllocError>
        ensures { IfOk result (λ l. l ≡ self.old) }
    {
        let past = mem::replace(&mut self.past, PastLines::none());
        let handed = self.row.hand_out();
        self.row.clear();
        let row = handed?;
        let keeps = self.keeps;
        Ok(LineLog { row, keeps, past })
    }

    /// Where the lines' memory comes from.
    pub(crate) fn allocator(&self) -> Global {
        self.row.allocator()
    }

    /// The lines as a row. It fails where they weren't kept.
    pub(crate) fn into_row(self) -> Result<Row, AllocError>
        ensures { IfOk result (λ row. row ≡ self) }
    {
        let LineLog {
            row,
            keeps,
            past: _,
        } = self;
        if keeps { Ok(row) } else { Err(AllocError) }
    }
}
