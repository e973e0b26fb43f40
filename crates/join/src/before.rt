//! The lines of a proof that stand before those of its tree: what a simplification gives.
ghost use Rattle.std.specs.Prelude.{◌≡◌, ◌≤◌, ◌∷◌, [], List, IfOk, OnOk};
ghost use Rattle.std.specs.Bool.{OnFalse};
ghost use Rattle.theory.specs.Learning.{Line};
ghost use Rattle.theory.specs.Reading.{large, max_clauses};
ghost use Rattle.simplify.specs.Made.{steps_from};
ghost use Rattle.join.specs.Before.{before_left, IsBefore};
ghost use Rattle.join.specs.Rooms.{longest_text};
ghost use Rattle.join.specs.Walking.{line_of, HasNextLine};

use crate::line::{Kind, ProofLine};
use lines::{Reader, Row};
use lrat::MAX_NUMBER;
use std::alloc::{AllocError, Global};

/// The lines before that are still to come. Each is made as it is asked for, in the memory of the
/// one before.
pub struct LinesBefore {
    /// What they are made of: where one has no hints, it says what is deleted.
    rows: Reader,

    /// The number of the clause added last.
    last: u64,

    /// What the line that was read last forgets.
    forgets: Vec<u64>,

    /// The line that was given last.
    line: ProofLine,
}

// written out, so that proofs of its owners stay short (docs/PROVING.md)
impl Drop for LinesBefore {
    fn drop(self) {
        let LinesBefore {
            rows: _,
            last: _,
            forgets: _,
            line: _,
        } = self;
    }
}

impl LinesBefore {
    /// The lines of a row, behind a formula of so many clauses. All memory that they need is asked
    /// for here; it fails only where that is refused.
    pub fn of(alloc: Global, clauses: u64, row: Row) -> Result<LinesBefore, AllocError>
        requires { clauses ≤ max_clauses large }
        ensures left { IfOk result (λ l. before_left l ≡ steps_from clauses row) }
        ensures lawful { IfOk result IsBefore }
    {
        let (literals, numbers) = (row.most_literals(), row.most_numbers());
        Ok(LinesBefore {
            rows: Reader::of(row),
            last: clauses,
            forgets: Vec::with_capacity(alloc, numbers)?,
            line: ProofLine::with_room(alloc, literals, numbers)?,
        })
    }

    /// The line that was given last.
    pub fn line(&self) -> &ProofLine
        ensures { result.now ≡ self.now.line }
    {
        &self.line
    }

    /// The most bytes that the text of a line has, as `Lines::line_size` says it.
    pub fn line_size(&self) -> usize
        ensures { result ≡ longest_text self.now.line }
    {
        self.line.size()
    }

    /// Makes the line that was read one that deletes, or one that adds a clause.
    fn take_up(&mut self) -> Result<(), AllocError>
        requires { IsBefore self.old }
        ensures line { OnOk result ((rows : List Line) → steps_from self.old.last (record { clause = self.old.line.clause.items; hints = self.old.line.numbers.items; forgets = self.old.forgets.items } ∷ rows)
            ≡ line_of self.new.line ∷ steps_from self.new.last rows) }
        ensures rows { OnOk result (self.new.rows ≡ self.old.rows) }
        ensures lawful { OnOk result (IsBefore self.new) }
    {
        if self.line.numbers.is_empty() {
            self.line.delete(self.last, &mut self.forgets);
            return Ok(());
        }
        if self.last >= MAX_NUMBER {
            return Err(AllocError);
        }
        self.last += 1;
        self.line.kind = Kind::Addition;
        self.line.id = self.last;
        Ok(())
    }

    /// Makes the next line, which `line` shows then; it answers whether there was one more. It fails
    /// only where a request for memory is refused, or where a number would be above its limit; then
    /// no line can be asked for any more.
    pub fn next_line(&mut self) -> Result<bool, AllocError>
        requires { IsBefore self.old }
        ensures rest { IfOk result (λ more. HasNextLine (before_left self.old) (before_left self.new) (line_of self.new.line) more) }
        ensures end { IfOk result (λ more. OnFalse more (before_left self.new ≡ [])) }
        ensures lawful { OnOk result (IsBefore self.new) }
    {
        let numbers = &mut self.line.numbers;
        if !self
            .rows
            .next(&mut self.line.clause, numbers, &mut self.forgets)?
        {
            return Ok(false);
        }
        self.take_up()?;
        Ok(true)
    }
}
