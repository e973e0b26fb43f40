//! Words written into bytes that are there, each with a space behind it.
//!
//! A text that grows by one number after the other asks for each whether there is room, and copies
//! its digits from where they were written. In room that is made for a whole list they are written
//! where they stay. Putting a run's proof together takes a tenth less time by it.
ghost use Rattle.std.specs.Prelude.{◌≡◌, ◌+◌, ◌-◌, ◌*◌, ◌^◌, ◌<◌, ◌≤◌, ◌++◌, ◌∷◌, [], map, length, take, decimal, min};
ghost use Rattle.theory.specs.Texts.{space, literal_text};
ghost use Rattle.lrat_text.specs.Words.{spaced, begun_line};

use cnf::Lit;
use itoa::write_digits;

/// The most bytes that a number has, with the space behind it.
const NUMBER_SIZE: usize = 21;

/// The most bytes that a literal has, with the space behind it.
const LITERAL_SIZE: usize = 12;

/// How many bytes so many numbers have at most. Sizes stop at the greatest one.
pub(crate) fn numbers_room(count: usize) -> usize
    ensures { result ≡ min (21 * count) (2 ^ 64 - 1) }
{
    count.saturating_mul(NUMBER_SIZE)
}

/// How many bytes a clause has at most, with its number, the zero and so many hints. Sizes stop at
/// the greatest one.
pub(crate) fn clause_room(literals: usize, hints: usize) -> usize
    ensures { result ≡ min (12 * literals + 21 * hints + 23) (2 ^ 64 - 1) }
{
    literals
        .saturating_mul(LITERAL_SIZE)
        .saturating_add(numbers_room(hints))
        .saturating_add(NUMBER_SIZE + 2)
}

/// How many digits a number below 10,000 has.
fn few_digits(n: u64) -> usize
    requires { n < 10000 }
    ensures { result ≡ length (decimal n) }
{
    if n < 10 {
        1
    } else if n < 100 {
        2
    } else if n < 1_000 {
        3
    } else {
        4
    }
}

/// How many digits a number has. Most numbers of a proof have four to seven, so these are told
/// without a division.
fn digits(n: u64) -> usize
    ensures { result ≡ length (decimal n) }
{
    if n < 10_000 {
        few_digits(n)
    } else if n < 100_000 {
        5
    } else if n < 1_000_000 {
        6
    } else if n < 10_000_000 {
        7
    } else {
        4 + digits(n / 10_000)
    }
}

/// Writes a number and a space at a place. The answer is the place behind them.
fn place_number(n: u64, bytes: &mut [u8], at: usize) -> usize
    requires { at + length (decimal n) < length bytes.old }
    ensures end { result ≡ at + length (decimal n) + 1 }
    ensures text { take result bytes.new ≡ take at bytes.old ++ decimal n ++ space ∷ [] }
{
    let end = at + digits(n);
    let _at = write_digits(n, bytes, end);
    bytes[end] = b' ';
    end + 1
}

/// Writes a literal and a space at a place. The answer is the place behind them.
fn place_literal(lit: Lit, bytes: &mut [u8], at: usize) -> usize
    requires { at + 12 ≤ length bytes.old }
    ensures within { result ≤ at + 12 }
    ensures text { take result bytes.new ≡ take at bytes.old ++ literal_text lit ++ space ∷ [] }
{
    let var = u64::from(lit.var());
    if lit.positive() {
        return place_number(var, bytes, at);
    }
    bytes[at] = b'-';
    place_number(var, bytes, at + 1)
}

/// Writes numbers at a place, each with a space behind it. The answer is the place behind them.
pub(crate) fn place_numbers(numbers: &[u64], bytes: &mut [u8], at: usize) -> usize
    requires { at + 21 * length numbers.now ≤ length bytes.old }
    ensures within { result ≤ at + 21 * length numbers.now }
    ensures text { take result bytes.new ≡ take at bytes.old ++ spaced (map decimal numbers.now) }
{
    let mut end = at;
    for number in numbers {
        end = place_number(*number, bytes, end);
    }
    end
}

/// Writes literals at a place, each with a space behind it. The answer is the place behind them.
fn place_literals(lits: &[Lit], bytes: &mut [u8], at: usize) -> usize
    requires { at + 12 * length lits.now ≤ length bytes.old }
    ensures within { result ≤ at + 12 * length lits.now }
    ensures text { take result bytes.new ≡ take at bytes.old ++ spaced (map literal_text lits.now) }
{
    let mut end = at;
    for lit in lits {
        end = place_literal(*lit, bytes, end);
    }
    end
}

/// Writes a clause's number, the clause and the hints before the first group at a place. The answer
/// is the place behind them.
pub(crate) fn place_clause(
    id: u64,
    clause: &[Lit],
    hints: &[u64],
    bytes: &mut [u8],
    at: usize,
) -> usize
    requires { at + 12 * length clause.now + 21 * length hints.now + 23 ≤ length bytes.old }
    ensures within { result ≤ length bytes.new }
    ensures text { take result bytes.new ≡ take at bytes.old ++ begun_line id clause.now hints.now }
{
    let behind_id = place_number(id, bytes, at);
    let behind_clause = place_literals(clause, bytes, behind_id);
    bytes[behind_clause] = b'0';
    bytes[behind_clause + 1] = b' ';
    place_numbers(hints, bytes, behind_clause + 2)
}
