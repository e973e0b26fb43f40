//! Simplifications as text.

use cnf::{Formula, Lit, read_formula};
use lines::Row;
use simplify::{Simplification, Watcher, simplify};
use std::alloc::{AllocError, Global};
use std::fmt::Write;
use std::test::Fail;

/// It lets each simplification come to its end.
pub struct Patient;

impl Watcher for Patient {
    fn looked_at(&self, _literals: u64) {}

    fn stops(&self) -> bool {
        false
    }
}

/// The simplification of a text's formula.
pub fn simplified(alloc: Global, text: &str) -> Result<Simplification, Fail> {
    let formula = read_formula(alloc, text.as_bytes())?;
    if formula.vars() < 1 {
        return Err("a formula without variables".into());
    }
    Ok(simplify(alloc, &formula, &Patient)?)
}

/// Puts literals, and a 0.
fn put_literals(text: &mut String, lits: &[Lit]) -> Result<(), AllocError> {
    for lit in lits {
        let number = lit.number();
        write!(text, "{number} ")?;
    }
    text.push_str("0")
}

/// Puts numbers of clauses, and a 0.
fn put_numbers(text: &mut String, numbers: &[u64]) -> Result<(), AllocError> {
    for number in numbers {
        write!(text, "{number} ")?;
    }
    text.push_str("0\n")
}

/// The lines as those of a proof, behind so many clauses.
pub fn lines_text(alloc: Global, mut lines: Row, count: u64) -> Result<String, AllocError> {
    let mut text = String::new(alloc);
    let mut clause = Vec::new(alloc);
    let mut hints = Vec::new(alloc);
    let mut forgets = Vec::new(alloc);
    let mut last = count;
    for _ in 0..lines.len() {
        if !lines.take_first(&mut clause, &mut hints, &mut forgets)? {
            return Ok(text);
        }
        if hints.is_empty() {
            write!(text, "{last} d ")?;
            put_numbers(&mut text, &forgets)?;
        } else {
            last = last.saturating_add(1);
            write!(text, "{last} ")?;
            put_literals(&mut text, &clause)?;
            text.push_str(" ")?;
            put_numbers(&mut text, &hints)?;
        }
    }
    Ok(text)
}

/// Whether a clause has both signs of its one variable: its number is that of no clause any more.
fn is_gone(clause: &[Lit]) -> bool {
    match clause {
        [first, second] => first.var() == second.var() && first.positive() != second.positive(),
        _ => false,
    }
}

/// The clauses that are left, each behind its number.
pub fn left_text(alloc: Global, formula: &Formula) -> Result<String, AllocError> {
    let mut text = String::new(alloc);
    for place in 0..formula.clause_count() {
        let clause = formula.clause(place);
        if !is_gone(clause) {
            let number = place + 1;
            write!(text, "{number} ")?;
            put_literals(&mut text, clause)?;
            text.push_str("\n")?;
        }
    }
    Ok(text)
}
