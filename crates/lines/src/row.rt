//! A row of lines.
ghost use Rattle.std.specs.Prelude.{◌≡◌, ◌≤◌, ◌∷◌, ◌++◌, [], ◌↔◌, All, IsTrue, IsNone, length, drop, IfOk, IfSome, OnOk, OnErr};
ghost use Rattle.lines.specs.Rows.{row, AreWithin, IsWhole, IsNextOf};

use crate::cursor::Cursor;
use crate::line::push_line;
use crate::reader::read_line;
use crate::scan::Scan;
use cnf::Lit;
use std::alloc::{AllocError, Global};
use std::marker::Model;
use std::mem;

/// So many bytes of lines are copied where they are handed out. Growing anew to as many takes about
/// a dozen requests for memory.
const COPIED: usize = 1 << 16;

/// Lines of a refuted cube in the order in which they were learnt, one behind the other as bytes: a
/// clause by the distances of its literals, hints and forgotten clauses by those of their numbers.
/// That is less than half of what the lines take as text, and asks for no memory a line but where it
/// has to grow.
#[derive(Drop)]
pub struct Row {
    bytes: Vec<u8>,
    // how many lines there are
    count: usize,
    // the most literals that a line has
    literals: usize,
    // the length of the longest list of numbers
    numbers: usize,
}

impl Model for Row {
    ghost use Rattle.std.specs.Prelude.{◌≡◌, List, length};
    ghost use Rattle.theory.specs.Learning.{Line};
    ghost use Rattle.lines.specs.Rows.{row, AreWithin, IsWhole};

    ghost Value = { List Line };

    ghost view = { λ a. (row a.bytes.items).lines };

    ghost invariant = { λ a. IsWhole a.bytes.items × (a.count ≡ length (row a.bytes.items).lines)
        × AreWithin a.literals a.numbers (row a.bytes.items).lines };
}

/// Takes so many bytes away from the front. The others move there, in the same memory.
fn cut_front(bytes: &mut Vec<u8>, count: usize)
    requires { count ≤ length bytes.old.items }
    ensures { bytes.new.items ≡ drop count bytes.old.items }
{
    let len = bytes.len();
    bytes.as_mut_slice().copy_within(count..len, 0);
    bytes.truncate(len - count);
}

impl Row {
    /// No lines. It takes no memory.
    pub fn new(alloc: Global) -> Row
        ensures { result ≡ [] }
    {
        Row {
            bytes: Vec::new(alloc),
            count: 0,
            literals: 0,
            numbers: 0,
        }
    }

    /// The lines once more, in memory of just their size. It fails only where that is refused.
    fn copied(&self) -> Result<Row, AllocError>
        ensures { IfOk result (λ r. r ≡ self.now) }
    {
        Ok(Row {
            bytes: Vec::from_slice(self.allocator(), &self.bytes)?,
            count: self.count,
            literals: self.literals,
            numbers: self.numbers,
        })
    }

    /// Hands all lines out. Up to 64 KiB of them are copied, so that this row keeps its memory for
    /// other lines; more are handed out as they lie, and none is left, since a copy would take as
    /// much memory once more. It fails only where a request for memory is refused.
    pub fn hand_out(&mut self) -> Result<Row, AllocError>
        ensures { IfOk result (λ r. r ≡ self.old) }
    {
        if self.bytes.len() <= COPIED {
            return self.copied();
        }
        let alloc = self.allocator();
        Ok(mem::replace(self, Row::new(alloc)))
    }

    /// Puts a line behind the others, with the numbers of the clauses that are forgotten behind it.
    /// It fails where a request for memory is refused, and for a number above
    /// 9,223,372,036,854,775,807, which no proof can name; the lines are then as they were.
    pub fn push(&mut self, clause: &[Lit], hints: &[u64], forgets: &[u64]) -> Result<(), AllocError>
        ensures ok { OnOk result (self.new ≡ self.old ++ record { clause = clause.now; hints = hints.now; forgets = forgets.now } ∷ []) }
        ensures err { OnErr result (self.new ≡ self.old) }
    {
        let end = self.bytes.len();
        match push_line(&mut self.bytes, clause, hints, forgets) {
            Ok(()) => {
                self.count += 1;
                self.literals = self.literals.max(clause.len());
                self.numbers = self.numbers.max(hints.len()).max(forgets.len());
                Ok(())
            }
            Err(error) => {
                self.bytes.truncate(end);
                Err(error)
            }
        }
    }

    /// Takes all lines out, and keeps the memory for others.
    pub fn clear(&mut self)
        ensures { self.new ≡ [] }
    {
        self.bytes.clear();
        self.count = 0;
        self.literals = 0;
        self.numbers = 0;
    }

    /// How many lines there are.
    pub fn len(&self) -> usize
        ensures { result ≡ length self.now }
    {
        self.count
    }

    /// Whether there is no line.
    pub fn is_empty(&self) -> bool
        ensures { IsTrue result ↔ (self.now ≡ []) }
    {
        self.count == 0
    }

    /// How many bytes the lines take.
    pub fn size(&self) -> usize {
        self.bytes.len()
    }

    /// No line has more literals: it is the most that one had as it was pushed.
    pub fn most_literals(&self) -> usize
        ensures { All (λ l. length l.clause ≤ result) self.now }
    {
        self.literals
    }

    /// No line has more hints, and none forgets more clauses.
    pub fn most_numbers(&self) -> usize
        ensures { All (λ l. (length l.hints ≤ result) × (length l.forgets ≤ result)) self.now }
    {
        self.numbers
    }

    /// Where the lines' memory comes from.
    pub fn allocator(&self) -> Global {
        *self.bytes.allocator()
    }

    /// The row of bytes that are whole lines: so many, none with more literals or a longer list of
    /// numbers.
    pub(crate) fn of(bytes: Vec<u8>, count: usize, literals: usize, numbers: usize) -> Row
        requires whole { IsWhole bytes.items }
        requires count { count ≡ length (row bytes.items).lines }
        requires within { AreWithin literals numbers (row bytes.items).lines }
        ensures { result ≡ (row bytes.items).lines }
    {
        Row {
            bytes,
            count,
            literals,
            numbers,
        }
    }

    /// The row of these bytes, if they are whole lines. They may be any: it goes over them once,
    /// and takes no memory.
    pub fn from_bytes(bytes: Vec<u8>) -> Option<Row>
        ensures some { IfSome result (λ r. IsWhole bytes.items × (r ≡ (row bytes.items).lines)) }
        ensures none { IsNone result → ¬ (IsWhole bytes.items) }
    {
        let scan = Scan::of(&bytes);
        if !scan.is_whole() {
            return None;
        }
        let row = Row::of(bytes, scan.lines, scan.most_literals, scan.most_numbers);
        Some(row)
    }

    /// Takes the first line out, into three lists, which are cleared before; it answers whether there
    /// was one. The others take its place, in the memory that they have. It fails where a request for
    /// memory is refused: the row is then as it was.
    pub fn take_first(
        &mut self,
        clause: &mut Vec<Lit>,
        hints: &mut Vec<u64>,
        forgets: &mut Vec<u64>,
    ) -> Result<bool, AllocError>
        ensures line { IfOk result (λ more. IsNextOf self.old self.new (record { clause = clause.new.items; hints = hints.new.items; forgets = forgets.new.items }) more) }
        ensures refused { OnErr result (self.new ≡ self.old) }
    {
        if self.count == 0 {
            return Ok(false);
        }
        let end = read_line(&self.bytes, 0, clause, hints, forgets)?;
        cut_front(&mut self.bytes, end);
        self.count -= 1;
        Ok(true)
    }

    /// The bytes that the lines are.
    pub fn bytes(&self) -> &[u8]
        ensures whole { IsWhole result.now }
        ensures lines { (row result.now).lines ≡ self.now }
    {
        &self.bytes
    }

    /// The lines, from the first one on, to be read while the row stays. It takes no memory.
    pub fn lines(&self) -> Cursor<'_>
        ensures { result ≡ self.now }
    {
        Cursor::of(&self.bytes, self.count, self.literals, self.numbers)
    }

    /// The bytes.
    pub(crate) fn into_bytes(self) -> Vec<u8>
        ensures whole { IsWhole result.items }
        ensures lines { (row result.items).lines ≡ self }
    {
        self.bytes
    }
}
