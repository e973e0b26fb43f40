//! Lines of a row that stays where it is, read one after the other.
ghost use Rattle.std.specs.Prelude.{◌≡◌, [], ◌∷◌, length, IsNone, IfOk, IfSome, OnErr};
ghost use Rattle.lines.specs.Rows.{IsNextOf};

use crate::reader::read_line;
use crate::row::Row;
use crate::scan::Scan;
use cnf::Lit;
use std::alloc::{AllocError, Global};
use std::marker::Model;

/// The lines of a row that are still to be read, as a `Reader` has them; the row is lent, and is
/// there afterwards.
#[derive(Drop)]
pub struct Cursor<'r> {
    bytes: &'r [u8],
    // where the next line begins
    at: usize,
    // how many lines are left
    left: usize,
    // no line that is left has more literals
    literals: usize,
    // nor a longer list of numbers
    numbers: usize,
}

impl<'r> Model for Cursor<'r> {
    ghost use Rattle.std.specs.Prelude.{◌≡◌, ◌≤◌, List, length, drop};
    ghost use Rattle.theory.specs.Learning.{Line};
    ghost use Rattle.lines.specs.Rows.{row, AreWithin, IsWhole};

    ghost Value = { List Line };

    ghost view = { λ a. (row (drop a.at a.bytes.now)).lines };

    ghost invariant = { λ a. (a.at ≤ length a.bytes.now) × IsWhole (drop a.at a.bytes.now)
        × (a.left ≡ length (row (drop a.at a.bytes.now)).lines)
        × AreWithin a.literals a.numbers (row (drop a.at a.bytes.now)).lines };
}

impl<'r> Cursor<'r> {
    ghost use Rattle.lines.specs.Rows.{row, AreWithin, IsWhole};

    /// The lines that the bytes are, of which there are so many, none with more literals or a longer
    /// list of numbers.
    pub(crate) fn of(bytes: &'r [u8], left: usize, literals: usize, numbers: usize) -> Cursor<'r>
        requires whole { IsWhole bytes.now }
        requires left { left ≡ length (row bytes.now).lines }
        requires within { AreWithin literals numbers (row bytes.now).lines }
        ensures { result ≡ (row bytes.now).lines }
    {
        Cursor {
            bytes,
            at: 0,
            left,
            literals,
            numbers,
        }
    }

    /// The lines that bytes are, if they are whole lines. They may be any: it goes over them once,
    /// and takes no memory.
    pub fn over(bytes: &'r [u8]) -> Option<Cursor<'r>>
        ensures some { IfSome result (λ c. IsWhole bytes.now × (c ≡ (row bytes.now).lines)) }
        ensures none { IsNone result → ¬ (IsWhole bytes.now) }
    {
        let scan = Scan::of(bytes);
        if scan.is_whole() {
            Some(Cursor::of(bytes, scan.lines, scan.most_literals, scan.most_numbers))
        } else {
            None
        }
    }

    /// The lines that are still to be read, as a row of their own, which may take a line that was
    /// read for its longest. It copies their bytes, and doesn't go over them: they are whole lines.
    /// It fails where a request for memory is refused.
    pub fn rest(&self, alloc: Global) -> Result<Row, AllocError>
        ensures { IfOk result (λ r. r ≡ self.now) }
    {
        let bytes = Vec::from_slice(alloc, &self.bytes[self.at..])?;
        Ok(Row::of(bytes, self.left, self.literals, self.numbers))
    }

    /// How many lines are still to be read.
    pub fn len(&self) -> usize
        ensures { result ≡ length self.now }
    {
        self.left
    }

    /// Reads the next line into three lists, which are cleared before; it answers whether there was
    /// one. It fails where a request for memory is refused: the line is then still to be read.
    pub fn next(
        &mut self,
        clause: &mut Vec<Lit>,
        hints: &mut Vec<u64>,
        forgets: &mut Vec<u64>,
    ) -> Result<bool, AllocError>
        ensures line { IfOk result (λ more. IsNextOf self.old self.new (record { clause = clause.new.items; hints = hints.new.items; forgets = forgets.new.items }) more) }
        ensures refused { OnErr result (self.new ≡ self.old) }
    {
        if self.left == 0 {
            return Ok(false);
        }
        self.at = read_line(self.bytes, self.at, clause, hints, forgets)?;
        self.left -= 1;
        Ok(true)
    }
}
