//! Unit clauses for what is true for good, so that hints need no more than one clause for each.

use crate::clauses::NOWHERE;
use crate::lines::{MadeLines, NewHint};
use crate::propagation::Propagation;
use cnf::Lit;
use std::alloc::{AllocError, Global};

/// The unit clauses of a clause's literals other than this one, which are false for good, and then
/// the clause.
fn put_hints(
    propagation: &Propagation,
    clause: usize,
    but: Option<Lit>,
    hints: &mut Vec<NewHint>,
) -> Result<(), AllocError> {
    for lit in propagation.clauses.literals(clause) {
        if but != Some(*lit) {
            hints.push(NewHint::Clause(propagation.assignment.unit(*lit)))?;
        }
    }
    hints.push(NewHint::Clause(propagation.clauses.number(clause)))?;
    Ok(())
}

/// The number of the unit clause of a literal that this clause makes true for good: a clause of its
/// own, unless the clause has nothing else.
fn unit_of(
    alloc: Global,
    propagation: &Propagation,
    lines: &mut MadeLines,
    lit: Lit,
    clause: usize,
) -> Result<u64, AllocError> {
    if propagation.clauses.literals(clause).len() == 1 {
        return Ok(propagation.clauses.number(clause));
    }
    let mut hints = Vec::new(alloc);
    put_hints(propagation, clause, Some(lit), &mut hints)?;
    lines.add(&[lit], &hints)
}

/// Derives the unit clauses of the literals that became true from this place in the order on.
pub(crate) fn derive_units(
    alloc: Global,
    propagation: &mut Propagation,
    lines: &mut MadeLines,
    from: usize,
) -> Result<(), AllocError> {
    for place in from..propagation.assignment.len() {
        let Some(lit) = propagation.assignment.literal(place) else {
            break;
        };
        let clause = propagation.assignment.reason(lit);
        if clause != NOWHERE {
            let number = unit_of(alloc, propagation, lines, lit, clause)?;
            propagation.assignment.set_unit(lit, number);
        }
    }
    Ok(())
}

/// Adds the empty clause, by a clause whose literals are all false for good.
pub(crate) fn refute(
    alloc: Global,
    propagation: &Propagation,
    lines: &mut MadeLines,
    conflict: usize,
) -> Result<(), AllocError> {
    let mut hints = Vec::new(alloc);
    put_hints(propagation, conflict, None, &mut hints)?;
    let _ = lines.add(&[], &hints)?;
    Ok(())
}
