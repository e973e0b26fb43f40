//! Lines of a row, read one after the other.
ghost use Rattle.std.specs.Prelude.{◌≡◌, ◌<◌, ◌≤◌, ◌∷◌, [], ℕ, false, List, length, drop, IfOk, OnErr};
ghost use Rattle.theory.specs.Learning.{Line};
ghost use Rattle.lines.specs.Rows as rows;
ghost use Rattle.lines.specs.Rows.{Part, row, whole, with_bytes, with_number, clause_part, hints_part, with_list, IsListing, IsBetween, IsWhole, IsNextOf};

use crate::coding::{code_behind, hint_behind, literal_at};
use crate::row::Row;
use cnf::{Lit, put_last};
use std::alloc::AllocError;
use std::marker::Model;

/// The lines of a row that are still to be read. Each is read into memory that is used again.
#[derive(Drop)]
pub struct Reader {
    bytes: Vec<u8>,
    // where the next line begins
    at: usize,
    // how many lines are left
    left: usize,
}

impl Model for Reader {
    ghost use Rattle.std.specs.Prelude.{◌≡◌, ◌≤◌, List, length, drop};
    ghost use Rattle.theory.specs.Learning.{Line};
    ghost use Rattle.lines.specs.Rows.{row, IsWhole};

    ghost Value = { List Line };

    ghost view = { λ a. (row (drop a.at a.bytes.items)).lines };

    ghost invariant = { λ a. (a.at ≤ length a.bytes.items) × IsWhole (drop a.at a.bytes.items)
        × (a.left ≡ length (row (drop a.at a.bytes.items)).lines) };
}

/// A number, and the place behind its bytes.
#[derive(Clone, Copy)]
struct Number {
    value: u64,
    end: usize,
}

/// The number with seven bits more.
pub(crate) fn with_bits(number: u64, bits: u8) -> u64
    requires { bits < 128 }
    ensures { result ≡ rows.with_bits number bits }
{
    number % (1 << 57) * 128 + u64::from(bits)
}

/// The number at a place.
fn read_number(bytes: &[u8], at: usize) -> Number
    requires inside { at < length bytes.now }
    requires ends { (p : Part) × IsBetween p × ((with_bytes p (drop at bytes.now)).begun ≡ false) }
    ensures inside { (at < result.end) × (result.end ≤ length bytes.now) }
    ensures number { (p : Part) → IsBetween p → with_bytes p (drop at bytes.now) ≡ with_bytes (with_number p result.value) (drop result.end bytes.now) }
{
    let mut value = 0;
    let mut end = at;
    while end < bytes.len() && bytes[end] >= 128 {
        value = with_bits(value, bytes[end] - 128);
        end += 1;
    }
    if end == bytes.len() {
        return Number { value, end }; // it isn't so: the last number has an end
    }
    Number {
        value: with_bits(value, bytes[end]),
        end: end + 1,
    }
}

/// The literals of the line that begins at a place, behind those of an empty clause; the place
/// behind them.
fn read_clause(bytes: &[u8], at: usize, clause: &mut Vec<Lit>) -> Result<usize, AllocError>
    requires inside { at < length bytes.now }
    requires whole { IsWhole (drop at bytes.now) }
    requires empty { clause.old.items ≡ [] }
    ensures inside { IfOk result (λ end. (at < end) × (end < length bytes.now)) }
    ensures clause { IfOk result (λ end. row (drop at bytes.now) ≡ with_bytes (hints_part [] clause.new.items [] 0) (drop end bytes.now)) }
{
    let mut end = at;
    let mut last = 0;
    'literals: loop {
        let number = read_number(bytes, end);
        end = number.end;
        if number.value == 0 {
            return Ok(end);
        }
        last = code_behind(last, number.value);
        put_last(clause, literal_at(last))?;
    }
}

/// The numbers of clauses at a place, behind an empty list: the hints of a line whose clause ends
/// there, or what one forgets whose hints do; the place behind them.
fn read_numbers(bytes: &[u8], at: usize, numbers: &mut Vec<u64>) -> Result<usize, AllocError>
    requires inside { at < length bytes.now }
    requires whole { (p : Part) × IsListing p × (lines : List Line) × (with_bytes p (drop at bytes.now) ≡ whole lines) }
    requires empty { numbers.old.items ≡ [] }
    ensures inside { IfOk result (λ end. (at < end) × (end ≤ length bytes.now)) }
    ensures numbers { IfOk result (λ end. (p : Part) → IsListing p → with_bytes p (drop at bytes.now) ≡ with_bytes (with_list p numbers.new.items) (drop end bytes.now)) }
{
    let mut end = at;
    let mut last = 0;
    'numbers: loop {
        let number = read_number(bytes, end);
        end = number.end;
        if number.value == 0 {
            return Ok(end);
        }
        last = hint_behind(last, number.value);
        put_last(numbers, last)?;
    }
}

/// The line that begins at a place, into lists that it clears; the place behind it.
pub(crate) fn read_line(
    bytes: &[u8],
    at: usize,
    clause: &mut Vec<Lit>,
    hints: &mut Vec<u64>,
    forgets: &mut Vec<u64>,
) -> Result<usize, AllocError>
    requires inside { at < length bytes.now }
    requires whole { IsWhole (drop at bytes.now) }
    ensures inside { IfOk result (λ end. end ≤ length bytes.now) }
    ensures whole { IfOk result (λ end. IsWhole (drop end bytes.now)) }
    ensures line { IfOk result (λ end. (row (drop at bytes.now)).lines ≡ record { clause = clause.new.items; hints = hints.new.items; forgets = forgets.new.items } ∷ (row (drop end bytes.now)).lines) }
{
    clause.clear();
    hints.clear();
    forgets.clear();
    let behind_clause = read_clause(bytes, at, clause)?;
    let behind_hints = read_numbers(bytes, behind_clause, hints)?;
    let end = read_numbers(bytes, behind_hints, forgets)?;
    Ok(end)
}

impl Reader {
    /// The lines of a row, from the first one on. It takes no memory.
    pub fn of(row: Row) -> Reader
        ensures { result ≡ row }
    {
        let left = row.len();
        Reader {
            bytes: row.into_bytes(),
            at: 0,
            left,
        }
    }

    /// How many lines are still to be read.
    pub fn len(&self) -> usize
        ensures { result ≡ length self.now }
    {
        self.left
    }

    /// Reads the next line into three lists, which are cleared before; it answers whether there was
    /// one. It fails where a request for memory is refused: the line is then still to be read.
    pub fn next(
        &mut self,
        clause: &mut Vec<Lit>,
        hints: &mut Vec<u64>,
        forgets: &mut Vec<u64>,
    ) -> Result<bool, AllocError>
        ensures line { IfOk result (λ more. IsNextOf self.old self.new (record { clause = clause.new.items; hints = hints.new.items; forgets = forgets.new.items }) more) }
        ensures refused { OnErr result (self.new ≡ self.old) }
    {
        if self.left == 0 {
            return Ok(false);
        }
        self.at = read_line(&self.bytes, self.at, clause, hints, forgets)?;
        self.left -= 1;
        Ok(true)
    }
}
