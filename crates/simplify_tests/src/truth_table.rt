//! Formulas by all assignments of few variables.

use cnf::Formula;
use std::alloc::{AllocError, Global};

/// The values of so many variables, by the bits of a number.
pub fn values_of(alloc: Global, vars: u32, bits: u32) -> Result<Vec<bool>, AllocError> {
    let mut values = Vec::new(alloc);
    for var in 0..vars {
        values.push((bits >> (var % 32)) & 1 == 1)?;
    }
    Ok(values)
}

/// Whether the values are those of the formula's variables, and satisfy it.
pub fn satisfies(formula: &Formula, values: &[bool]) -> bool {
    values.len() == formula.vars() as usize && formula.satisfied_by(values)
}
