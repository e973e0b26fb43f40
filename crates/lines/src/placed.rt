//! A line written into bytes that are there.
//!
//! A row that grows by one number after the other asks for each byte whether there is room. In room
//! that is made for a whole line at once the numbers are written one behind the other. A search of
//! parity chains, whose lines are many and short, takes a thirtieth less time by it.
ghost use Rattle.std.specs.Prelude.{◌≡◌, ◌+◌, ◌-◌, ◌*◌, ◌/◌, ◌^◌, ◌<◌, ◌≤◌, ◌∷◌, ◌++◌, [], ℕ, true, min, length, take, List, OnOk, IfOk};
ghost use Rattle.theory.specs.Learning.{Line};
ghost use Rattle.lines.specs.Rows.{Part, row, whole, with_number, hints_part, with_list, IsListing, IsBetween};

use crate::coding::{MAX_HINT, code, code_number, hint_number};
use cnf::Lit;
use std::alloc::AllocError;

/// The most bytes that a number has.
const NUMBER_SIZE: usize = 10;

/// The most bytes that a number below 2^35 has. Literals have no greater ones.
const SMALL_SIZE: usize = 5;

/// How many bytes a line takes at most, with room for one number more. Sizes stop at the greatest
/// one.
pub(crate) fn line_room(literals: usize, hints: usize, forgets: usize) -> usize
    ensures { result ≡ min (5 * literals + 10 * hints + 10 * forgets + 30) (2 ^ 64 - 1) }
{
    literals
        .saturating_mul(SMALL_SIZE)
        .saturating_add(hints.saturating_mul(NUMBER_SIZE))
        .saturating_add(forgets.saturating_mul(NUMBER_SIZE))
        .saturating_add(3 * NUMBER_SIZE)
}

/// Places the bytes of a number from 1 on that has more bits behind these. The answer is the place
/// behind them.
fn place_high(number: u64, bytes: &mut [u8], at: usize) -> usize
    requires some { 1 ≤ number }
    requires room { (k : ℕ) × (number < 128 ^ k) × (at + k ≤ length bytes.old) }
    ensures behind { at < result }
    ensures within { (k : ℕ) → number < 128 ^ k → result ≤ at + k }
    ensures front { take at bytes.new ≡ take at bytes.old }
    ensures value { IsBetween (row (take at bytes.old)) → row (take result bytes.new) ≡ record (row (take at bytes.old)) { value = number; begun = true } }
{
    if number < 128 {
        bytes[at] = number as u8 + 128;
        return at + 1;
    }
    let end = place_high(number / 128, bytes, at);
    bytes[end] = (number % 128) as u8 + 128;
    end + 1
}

/// Places a number. The answer is the place behind its bytes.
fn place_number(number: u64, bytes: &mut [u8], at: usize) -> usize
    requires room { at + 10 ≤ length bytes.old }
    ensures behind { at < result }
    ensures within { result ≤ at + 10 }
    ensures small { number < 2 ^ 35 → result ≤ at + 5 }
    ensures front { take at bytes.new ≡ take at bytes.old }
    ensures number { IsBetween (row (take at bytes.old)) → row (take result bytes.new) ≡ with_number (row (take at bytes.old)) number }
{
    if number < 128 {
        bytes[at] = number as u8;
        return at + 1;
    }
    let end = place_high(number / 128, bytes, at);
    bytes[end] = (number % 128) as u8;
    end + 1
}

/// Places a clause. The answer is the place behind it.
fn place_clause(clause: &[Lit], bytes: &mut [u8], at: usize) -> usize
    requires room { at + 5 * length clause.now + 10 ≤ length bytes.old }
    ensures behind { at < result }
    ensures within { result ≤ at + 5 * length clause.now + 10 }
    ensures front { take at bytes.new ≡ take at bytes.old }
    ensures clause { (lines : List Line) → row (take at bytes.old) ≡ whole lines →
        row (take result bytes.new) ≡ hints_part lines clause.now [] 0 }
{
    let mut end = at;
    let mut last = 0;
    for lit in clause {
        let code = code(*lit);
        end = place_number(code_number(last, code), bytes, end);
        last = code;
    }
    place_number(0, bytes, end)
}

/// Places numbers of clauses: hints behind their line's clause, or behind these what is forgotten.
/// The answer is the place behind them. A number above the greatest one of a clause counts as want
/// of memory.
fn place_numbers(numbers: &[u64], bytes: &mut [u8], at: usize) -> Result<usize, AllocError>
    requires room { at + 10 * length numbers.now + 10 ≤ length bytes.old }
    ensures within { IfOk result (λ end. (at < end) × (end ≤ at + 10 * length numbers.now + 10)) }
    ensures front { take at bytes.new ≡ take at bytes.old }
    ensures numbers { IfOk result (λ end. (p : Part) → IsListing p → row (take at bytes.old) ≡ p → row (take end bytes.new) ≡ with_list p numbers.now) }
{
    let mut end = at;
    let mut last = 0;
    for number in numbers {
        let number = *number;
        if number > MAX_HINT {
            return Err(AllocError);
        }
        end = place_number(hint_number(last, number), bytes, end);
        last = number;
    }
    Ok(place_number(0, bytes, end))
}

/// Places a line. The answer is the place behind it.
pub(crate) fn place_line(
    clause: &[Lit],
    hints: &[u64],
    forgets: &[u64],
    bytes: &mut [u8],
    at: usize,
) -> Result<usize, AllocError>
    requires room { at + 5 * length clause.now + 10 * length hints.now + 10 * length forgets.now + 30 ≤ length bytes.old }
    ensures within { IfOk result (λ end. (at < end) × (end ≤ length bytes.new)) }
    ensures front { take at bytes.new ≡ take at bytes.old }
    ensures line { IfOk result (λ end. (lines : List Line) → row (take at bytes.old) ≡ whole lines →
        row (take end bytes.new) ≡ whole (lines ++ record { clause = clause.now; hints = hints.now; forgets = forgets.now } ∷ [])) }
{
    let behind_clause = place_clause(clause, bytes, at);
    let behind_hints = place_numbers(hints, bytes, behind_clause)?;
    let end = place_numbers(forgets, bytes, behind_hints)?;
    Ok(end)
}
