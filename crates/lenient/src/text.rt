//! The strict text of a formula, made of one that isn't.
ghost use Rattle.std.specs.Prelude.{◌≡◌, IfOk};
ghost use Rattle.theory.specs.Truth.{Formula};
ghost use Rattle.theory.specs.Reading.{ReadsWithin, formula};
ghost use Rattle.cnf.specs.Limits.{limits_of};

use crate::passed::PassedOver;
use crate::scan::Scan;
use cnf::{Limits, read_formula_within};
use std::alloc::{AllocError, Global};

/// The strict text of a formula, and what was passed over to make it.
#[derive(Drop)]
pub struct LenientText {
    pub text: Vec<u8>,
    pub passed: PassedOver,
}

/// Passes over what other solvers do in a text that is refused.
fn scanned(alloc: Global, text: &[u8]) -> Result<LenientText, AllocError> {
    let mut scan = Scan::new(alloc);
    scan.take(text)?;
    scan.finish(alloc)
}

/// The strict text of a formula: this one if it is one within the limits. Else wrong counts in its
/// header are set right, or a header is put before a text that begins with clauses, numbers get plain
/// digits, comments that stand where a clause may begin, or behind blanks at a line's beginning, are
/// left out, and so is all from a word on that begins with `%` where a clause may begin. It takes
/// memory by the text.
pub fn lenient_text(alloc: Global, text: Vec<u8>, limits: Limits) -> Result<LenientText, AllocError>
    ensures { IfOk result (λ t. (F : Formula) → ReadsWithin (limits_of limits) text.items (formula F) → t.text.items ≡ text.items) }
{
    match read_formula_within(alloc, &text, limits) {
        Ok(_) => Ok(LenientText {
            text,
            passed: PassedOver::nothing(),
        }),
        // want of memory alone has no place
        Err(fault) if fault.place().is_none() => Err(AllocError),
        Err(_) => scanned(alloc, &text),
    }
}
