//! Clauses and questions as numbers.

use cnf::Lit;
use session::{Answer, Interrupt, Session};
use std::alloc::{AllocError, Global};

/// The literals of these numbers.
pub fn lits_of(alloc: Global, numbers: &[i32]) -> Result<Vec<Lit>, AllocError> {
    let mut lits = Vec::new(alloc);
    for number in numbers {
        if let Some(lit) = Lit::new(*number) {
            lits.push(lit)?;
        }
    }
    Ok(lits)
}

/// Adds a clause of these numbers.
pub fn add(alloc: Global, session: &mut Session, numbers: &[i32]) -> Result<(), AllocError> {
    let lits = lits_of(alloc, numbers)?;
    session.add_clause(&lits)
}

/// Asks under assumptions of these numbers.
pub fn ask<I: Interrupt>(
    alloc: Global,
    session: &mut Session,
    numbers: &[i32],
    interrupt: &I,
) -> Result<Answer, AllocError> {
    let lits = lits_of(alloc, numbers)?;
    session.solve(&lits, interrupt)
}

/// Whether a literal of this number is among these.
pub fn has_number(lits: &[Lit], number: i32) -> bool {
    for lit in lits {
        if lit.number() == number {
            return true;
        }
    }
    false
}
