//! What a clause has: its literals, each once, and its greatest variable.

use crate::marks::LiteralMarks;
use cnf::Lit;
use std::alloc::AllocError;

/// The literals of a clause, each once, in their order; none where it has both signs of a variable.
/// They are marked then.
pub(crate) fn take_distinct(
    marks: &mut LiteralMarks,
    clause: &[Lit],
    distinct: &mut Vec<Lit>,
) -> Result<bool, AllocError> {
    marks.clear();
    distinct.clear();
    for lit in clause {
        if marks.has(lit.negated()) {
            return Ok(false);
        }
        if !marks.has(*lit) {
            marks.mark(*lit);
            distinct.push(*lit)?;
        }
    }
    Ok(true)
}

/// The greatest variable of a clause, or 0.
pub(crate) fn greatest_variable(clause: &[Lit]) -> u32 {
    clause.iter().map(|lit| lit.var()).max().unwrap_or(0)
}
